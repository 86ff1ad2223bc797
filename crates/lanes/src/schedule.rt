// The message schedules of eight blocks, a vector for each word.
ghost use Rattle.std.specs.Prelude.{◌≡◌, ℕ, ◌+◌, ◌<◌, ◌≤◌, List, [], take, slice_index, slice_index_or};
ghost use Rattle.compression.specs.Fips180.{words, word_after, schedule};
ghost use Rattle.lanes.specs.Lane.{lane_of, word_at};

use crate::words::{small_sigma_0, small_sigma_1};
use std::simd::prelude::*;

// Word t of a block.
fn word(block: &[u8; 64], t: usize) -> u32
    requires { t < 16 }
    ensures { result ≡ word_at t block.now }
{
    u32::from_be_bytes([
        block[4 * t],
        block[4 * t + 1],
        block[4 * t + 2],
        block[4 * t + 3],
    ])
}

// Word t of each block.
fn across(blocks: &[[u8; 64]; 8], t: usize) -> u32x8
    requires { t < 16 }
    ensures { (j : ℕ) → j < 8 → slice_index result j ≡ word_at t (slice_index_or blocks.now j []) }
{
    let [a, b, c, d, e, f, g, h] = blocks;
    u32x8::from_array([
        word(a, t),
        word(b, t),
        word(c, t),
        word(d, t),
        word(e, t),
        word(f, t),
        word(g, t),
        word(h, t),
    ])
}

// Writes the words of the blocks in front.
pub fn load(blocks: &[[u8; 64]; 8], w: &mut [u32x8; 64])
    ensures { (j : ℕ) → j < 8 → take 16 (lane_of j w.new) ≡ words 16 (slice_index_or blocks.now j []) }
{
    for t in 0..16 {
        w[t] = across(blocks, t);
    }
}

// The words after those of sixteen, fifteen, seven and two places before.
fn next_word(w16: u32x8, w15: u32x8, w7: u32x8, w2: u32x8) -> u32x8
    ensures { (j : ℕ) → j < 8 → slice_index result j ≡ word_after (slice_index w16 j) (slice_index w15 j) (slice_index w7 j) (slice_index w2 j) }
{
    small_sigma_1(w2) + w7 + small_sigma_0(w15) + w16
}

// Writes the eight words from word t + 16 on.
fn eight_words(w: &mut [u32x8; 64], t: usize)
    requires { t + 8 ≤ 48 }
    ensures { (j : ℕ) → j < 8 → (b : List ℕ) → take (t + 16) (lane_of j w.old) ≡ schedule t b → take (t + 8 + 16) (lane_of j w.new) ≡ schedule (t + 8) b }
{
    for k in 0..8 {
        let i = t + k;
        w[i + 16] = next_word(w[i], w[i + 1], w[i + 9], w[i + 14]);
    }
}

// Writes the words behind those of the blocks.
pub fn expand(w: &mut [u32x8; 64])
    ensures { (j : ℕ) → j < 8 → (b : List ℕ) → take 16 (lane_of j w.old) ≡ words 16 b → lane_of j w.new ≡ schedule 48 b }
{
    for i in 0..6 {
        eight_words(w, 8 * i);
    }
}
