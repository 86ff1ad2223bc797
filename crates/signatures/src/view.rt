// A signature that is looked at, wherever its numbers lie.
ghost use Rattle.std.specs.Prelude.{◌≡◌, ◌*◌, ◌<◌, map, length, IsSomeAnd, MatchOption};
ghost use Rattle.hash.specs.Value.{value_of};
ghost use Rattle.signatures.specs.Signatures.{Signature, LiesIn};
ghost use Rattle.signatures.specs.Views.{viewed};

use hash::Number;

// The key's number; for each bit its secret number, and what is shown of the other one; and the authentication path. Its lengths can be any.
// Beside the owned `ReadSignature` of the crate `texts` as `&str` is beside `String`: what is done with a signature is done with a view of it. Rows and no pairs, since a signature is printed and read row by row.
#[derive(Clone, Copy)]
pub struct SignatureView<'a> {
    pub key: u64,
    pub parts: &'a [Number],
    pub others: &'a [Number],
    pub path: &'a [Number],
}

impl<'a> SignatureView<'a> {
    // One of a key for so many bits, whose numbers all lie in one row: its parts, then as many others, then the path. None where these are too few.
    pub fn from_numbers(key: u64, bits: usize, flat: &'a [Number]) -> Option<SignatureView<'a>>
        ensures view { MatchOption result (length flat.now < 2 * bits) (λ v. LiesIn key bits (map value_of flat.now) (viewed v)) }
        ensures back { (g : Signature) → LiesIn key bits (map value_of flat.now) g → IsSomeAnd result (λ v. viewed v ≡ g) }
    {
        // By half the length, since twice the bits may be more than a number can be.
        if flat.len() / 2 < bits {
            return None;
        }
        let (parts, behind) = flat.split_at(bits);
        let (others, path) = behind.split_at(bits);
        Some(SignatureView {
            key,
            parts,
            others,
            path,
        })
    }
}
