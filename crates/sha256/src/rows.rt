// SHA-256 as the hash of rows of numbers.
ghost use Rattle.std.proofs.Common.{rules};
ghost use Rattle.sha256.specs.Rows.{row_bytes, row_hash};
ghost use Rattle.sha256.specs.Streams.{Holds};

use crate::stream::{Sha256, to_bytes};
use eight::{all_half_full, fill_eight, hash_padded};
use hash::{Number, Purpose, RowHasher};

mod eight;

// Takes in each number's thirty-two bytes as it comes, so that no row is held.
#[derive(Clone, Copy)]
pub struct RowSha256 {
    hasher: Sha256,
}

impl RowHasher for RowSha256 {
    ghost mix = { row_hash };

    ghost holds = { λ s xs. Holds s.hasher (row_bytes xs) };

    ghost eight_fit = { Prim.search rules };

    fn start(purpose: Purpose) -> RowSha256 {
        let mut rows = RowSha256 {
            hasher: Sha256::new(),
        };
        rows.absorb(&Number::from(purpose.tag()));
        rows
    }

    fn absorb(&mut self, x: &Number) {
        let bytes = x.to_bytes();
        // In a row all thirty-two have room, and a copy of so many is a few moves.
        if self.hasher.length % 64 <= 32 {
            self.hasher.take_in(&bytes);
        } else {
            self.hasher.update(&bytes);
        }
    }

    fn finish(self) -> Number {
        Number::from(self.hasher.finish())
    }

    // Where the numbers fill the blocks, these are hashed side by side.
    fn absorb_eight(hashers: &mut [RowSha256; 8], numbers: &[Number; 8]) {
        if all_half_full(hashers) {
            fill_eight(hashers, numbers);
        } else {
            for i in 0..8 {
                hashers[i].absorb(&numbers[i]);
            }
        }
    }

    fn finish_eight(hashers: &[RowSha256; 8]) -> [Number; 8] {
        let [a, b, c, d, e, f, g, h] = hash_padded(hashers);
        [
            Number::from(to_bytes(a)),
            Number::from(to_bytes(b)),
            Number::from(to_bytes(c)),
            Number::from(to_bytes(d)),
            Number::from(to_bytes(e)),
            Number::from(to_bytes(f)),
            Number::from(to_bytes(g)),
            Number::from(to_bytes(h)),
        ]
    }
}
