// Another hash under the trait: SHA-256 with the trait's own bodies, which do eight rows one by one. Trees are the same by both.
ghost use Rattle.std.proofs.Common.{rules};
ghost use Rattle.sha256.specs.Rows.{row_hash};
ghost use Rattle.sha256.specs.Eight.{RowHeld};

use hash::{Number, Purpose, RowHasher};
use keys::{Refusal, Signer};
use sha256::RowSha256;
use tree::Tree;

#[derive(Clone, Copy)]
struct OneByOne {
    hasher: RowSha256,
}

impl RowHasher for OneByOne {
    ghost mix = { row_hash };

    ghost holds = { λ s xs. RowHeld s.hasher xs };

    ghost eight_fit = { Prim.search rules };

    fn start(purpose: Purpose) -> OneByOne {
        OneByOne {
            hasher: RowSha256::start(purpose),
        }
    }

    fn absorb(&mut self, x: &Number) {
        self.hasher.absorb(x);
    }

    fn finish(self) -> Number {
        self.hasher.finish()
    }
}

#[test]
fn trees_one_by_one(rt: HostRuntime) -> Result<(), Refusal> {
    for levels in 0..6 {
        let seed = Number::from(17);
        let signer = Signer { levels, seed };
        let tree = Tree { signer, bits: 11 };
        assert!(rt; tree.root::<OneByOne>()? == tree.root::<RowSha256>()?);
    }
    Ok(())
}
