// A room with no signature in it, and a view of the one that it holds.
ghost use Rattle.std.specs.Prelude.{◌≡◌, map, replicate};
ghost use Rattle.hash.specs.Value.{value_of};
ghost use Rattle.keys.specs.Limits.{max_levels, max_bits};
ghost use Rattle.signatures.specs.Signatures.{blank};
ghost use Rattle.signatures.specs.Views.{viewed, held};

use super::SignatureRoom;
use crate::view::SignatureView;
use hash::Number;
use keys::Signer;

impl SignatureRoom {
    // Room for as many bits and levels as a signer may have, with no number in use and each 0.
    pub fn new() -> SignatureRoom
        ensures none { held result ≡ blank }
        ensures bits { (map value_of result.parts ≡ replicate max_bits 0) × (map value_of result.others ≡ replicate max_bits 0) }
        ensures levels { map value_of result.path ≡ replicate max_levels 0 }
    {
        let zero = Number::from(0);
        SignatureRoom {
            key: 0,
            bits: 0,
            levels: 0,
            parts: [zero; Signer::MAX_BITS],
            others: [zero; Signer::MAX_BITS],
            path: [zero; Signer::MAX_LEVELS],
        }
    }

    // The view of `ReadSignature` shows whole rows; here each is cut to what is in use.
    pub fn view<'a>(&'a self) -> SignatureView<'a>
        ensures { viewed result ≡ held self.now }
    {
        SignatureView {
            key: self.key,
            parts: &self.parts[0..self.bits],
            others: &self.others[0..self.bits],
            path: &self.path[0..self.levels],
        }
    }
}
