// A signature that is looked at again and again.
ghost use Rattle.std.specs.Prelude.{◌≡◌};
ghost use Rattle.hash.specs.Value.{value_of};
ghost use Rattle.signatures.specs.Signatures.{accepted};
ghost use Rattle.signatures.specs.Views.{viewed};
ghost use Rattle.keys.specs.Refusals.{tree_refusal, Unless};
ghost use Rattle.hash_speed.specs.Work.{row_of, taken_of, Looked};

use hash::{Number, RowHasher};
use keys::{Refusal, Signer};
use signatures::{SignatureRoom, SignatureView, sign_with, verify};
use tree::Tree;

// The row of bits that a look is for: one and the other in turn, so that no look can be left out.
fn row_of<'a>(one: &'a [bool], other: &'a [bool], look: u64) -> &'a [bool]
    ensures { result.now ≡ row_of one.now other.now look }
{
    if look % 2 == 0 { one } else { other }
}

// How many times a signature is accepted that is looked at so often.
fn look_again<H: RowHasher>(
    root: &Number,
    one: &[bool],
    other: &[bool],
    signature: SignatureView<'_>,
    count: u64,
) -> u64
    ensures { result ≡ taken_of (λ bs. accepted H.mix (value_of root.now) 10 bs (viewed signature.entry)) one.now other.now count }
{
    let mut taken = 0;
    for look in 0..count {
        let bits = row_of(one, other, look);
        taken += u64::from(verify::<H>(root, 10, bits, signature));
    }
    taken
}

// The root of a tree of ten levels over keys for 256 bits, and how many times a signature by its first key is accepted that is looked at so often: for the bits that were signed, which are all set, and for those with the last one not set.
pub fn looks<H: RowHasher>(count: u64) -> Result<(Number, u64), Refusal>
    ensures { Unless (tree_refusal 10 256) result (λ r. Looked H.mix count (value_of r.0) r.1) }
{
    let signer = Signer {
        levels: 10,
        seed: Number::from(17),
    };
    let tree = Tree { signer, bits: 256 };
    let root = tree.root::<H>()?;
    let bits = [true; 256];
    let mut room = SignatureRoom::new();
    sign_with::<H>(&signer, 0, &bits, &mut room)?;
    let mut other = bits;
    other[255] = false;
    let taken = look_again::<H>(&root, &bits, &other, room.view(), count);
    Ok((root, taken))
}
