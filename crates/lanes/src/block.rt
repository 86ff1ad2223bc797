// The next hash values of eight blocks.
ghost use Rattle.std.specs.Prelude.{◌≡◌, ◌↔◌, ℕ, ◌<◌, [], slice_index_or, IsTrue};
ghost use Rattle.std.specs.Simd.Lanes.{zip2};
ghost use Rattle.compression.specs.Fips180.{schedule, rounds, compressed};
ghost use Rattle.lanes.specs.Lane.{lane, Alike};

use crate::rounds::{all_rounds, all_rounds_alike};
use crate::schedule::{expand, load};
use crate::state::{State, add, from_states, into_states};
use compression::schedule_of;
use std::simd::prelude::*;

// Whether the blocks are all the same, as the last ones of eight messages that end alike.
fn alike(blocks: &[[u8; 64]; 8]) -> bool
    ensures { IsTrue result ↔ Alike blocks.now }
{
    let [a, b, c, d, e, f, g, h] = blocks;
    b == a && c == a && d == a && e == a && f == a && g == a && h == a
}

// All the rounds, with the schedules of the blocks. One schedule is worked out where they are all the same.
fn rounds_of_blocks(start: State, blocks: &[[u8; 64]; 8]) -> State
    ensures { (j : ℕ) → j < 8 → lane j result ≡ rounds 64 (schedule 48 (slice_index_or blocks.now j [])) (lane j start) }
{
    if alike(blocks) {
        all_rounds_alike(start, &schedule_of(&blocks[0]))
    } else {
        let mut w = [u32x8::splat(0); 64];
        load(blocks, &mut w);
        expand(&mut w);
        all_rounds(start, &w)
    }
}

// The next hash values of eight, each from one and a block of its own.
pub fn compress_eight(states: &[[u32; 8]; 8], blocks: &[[u8; 64]; 8]) -> [[u32; 8]; 8]
    ensures { result ≡ zip2 compressed states.now blocks.now }
{
    let start = from_states(states);
    into_states(add(rounds_of_blocks(start, blocks), start))
}
