// The fixed room that a signature is made in: a device has no heap. It stands in a file of its own, since its ghost fields import what the file imports.
ghost use Rattle.std.specs.Prelude.{◌≤◌};
ghost use Rattle.keys.specs.Limits.{max_levels, max_bits};

use hash::Number;
use keys::Signer;

// The largest signature that a signer can make has place in it. Of the three rows the first `bits`, `bits` and `levels` numbers are in use.
// Arrays with lengths beside them, since a device has no heap; and no `ArrayVec`, which hides what is not in use, since the contracts say that it stays as it was. Rows and no pairs, since each row is lent and printed as a whole.
#[derive(Drop)]
pub struct SignatureRoom {
    pub(crate) key: u64,
    pub(crate) bits: usize,
    pub(crate) levels: usize,
    pub(crate) parts: [Number; Signer::MAX_BITS],
    pub(crate) others: [Number; Signer::MAX_BITS],
    pub(crate) path: [Number; Signer::MAX_LEVELS],
    ghost few_bits: { bits ≤ max_bits },
    ghost few_levels: { levels ≤ max_levels },
}

mod methods;
