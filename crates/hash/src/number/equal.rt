// Numbers are equal where their meanings are.
ghost use Rattle.std.specs.Prelude.{◌≡◌, ◌↔◌, IsTrue, ◌==◌};
ghost use Rattle.hash.specs.Value.{value_of};
ghost use Rattle.hash.specs.Laws.{Bounded, BytesBack};
ghost use Rattle.std.specs.Cmp.{on_equiv, on_per, partial_equiv_from_equiv, nat_eq_equiv};

use super::Number;

// Whether two numbers have the same bytes. It reads both to the end, whatever they hold, so that its time tells nothing.
fn same_bytes(a: &[u8; 32], b: &[u8; 32]) -> bool
    ensures { IsTrue result ↔ (a.now ≡ b.now) }
{
    let mut same = true;
    for (x, y) in a.iter().zip(b) {
        same &= x == y;
    }
    same
}

// By hand and not derived, since what is derived stops at the first byte that differs.
impl PartialEq for Number {
    ghost eq = { λ x y. (value_of x == value_of y) };

    ghost laws = { on_per value_of (partial_equiv_from_equiv nat_eq_equiv) };

    fn eq(&self, other: &Number) -> bool {
        same_bytes(&self.bytes, &other.bytes)
    }
}

impl Eq for Number {
    ghost laws = { on_equiv value_of nat_eq_equiv };
}

// Every number is below 2^256, and its bytes are those of its meaning.
#[tactic(auto, using(crate::proofs::Numbers::bounded, crate::proofs::Numbers::bytes_back))]
pub fn numbers_are_their_bytes()
    ensures bounded { Bounded }
    ensures bytes_back { BytesBack }
{}
