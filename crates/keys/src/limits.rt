// The signer's type: its seed, how many levels its tree has, and the limits.
ghost use Rattle.std.specs.Prelude.{◌≡◌, ⊤};
ghost use Rattle.keys.specs.Refusals.{levels_refusal, bits_refusal, tree_refusal, Unless};

use crate::refusal::Refusal;
use hash::Number;

// Who signs: all keys come from the seed, and there are two to the power of `levels`. Any levels can be asked for; what is beyond the limits is refused where something is made.
#[derive(Clone, Copy)]
pub struct Signer {
    pub levels: u64,
    pub seed: Number,
}

impl Signer {
    pub const MAX_LEVELS: usize = 20;

    pub const MAX_BITS: usize = 256;

    pub fn refuse_levels(levels: u64) -> Result<(), Refusal>
        ensures { Unless (levels_refusal levels) result (λ _. ⊤) }
    {
        if levels > Self::MAX_LEVELS as u64 {
            return Err(Refusal::Levels(levels));
        }
        Ok(())
    }

    pub fn refuse_bits(bits: u64) -> Result<(), Refusal>
        ensures { Unless (bits_refusal bits) result (λ _. ⊤) }
    {
        if !(1..=Self::MAX_BITS as u64).contains(&bits) {
            return Err(Refusal::Bits(bits));
        }
        Ok(())
    }

    // The first refusal that applies to what is made of this signer's tree over keys of so many bits.
    pub fn refuse(&self, bits: u64) -> Result<(), Refusal>
        ensures { Unless (tree_refusal self.now.levels bits) result (λ _. ⊤) }
    {
        Self::refuse_levels(self.levels)?;
        Self::refuse_bits(bits)
    }
}
