// The message schedule: the sixty-four words that a block gives.
ghost use Rattle.std.specs.Prelude.{◌≡◌, ℕ, ◌+◌, ◌≤◌, List, take};
ghost use Rattle.compression.specs.Fips180.{words, word_after, schedule};

use crate::words::{small_sigma_0, small_sigma_1};

// Writes the words of a block in front. Into a lent array, since one that is given back is copied.
fn load(block: &[u8; 64], w: &mut [u32; 64])
    ensures { take 16 w.new ≡ words 16 block.now }
{
    for t in 0..16 {
        w[t] = u32::from_be_bytes([
            block[4 * t],
            block[4 * t + 1],
            block[4 * t + 2],
            block[4 * t + 3],
        ]);
    }
}

// The word of the schedule after those of sixteen, fifteen, seven and two places before.
#[tactic(auto, unfolding(crate::specs::Fips180::word_after))]
fn next_word(w16: u32, w15: u32, w7: u32, w2: u32) -> u32
    ensures { result ≡ word_after w16 w15 w7 w2 }
{
    small_sigma_1(w2)
        .wrapping_add(w7)
        .wrapping_add(small_sigma_0(w15))
        .wrapping_add(w16)
}

// Writes the eight words of the schedule from word t + 16 on. Eight in a function, so that the compiler writes them one behind the other and each has the word two places before it at hand.
fn eight_words(w: &mut [u32; 64], t: usize)
    requires { t + 8 ≤ 48 }
    ensures { (b : List ℕ) → take (t + 16) w.old ≡ schedule t b → take (t + 8 + 16) w.new ≡ schedule (t + 8) b }
{
    for j in 0..8 {
        let i = t + j;
        w[i + 16] = next_word(w[i], w[i + 1], w[i + 9], w[i + 14]);
    }
}

// Writes the words behind those of the block.
fn expand(w: &mut [u32; 64])
    ensures { (b : List ℕ) → take 16 w.old ≡ words 16 b → w.new ≡ schedule 48 b }
{
    for i in 0..6 {
        eight_words(w, 8 * i);
    }
}

// Writes the whole schedule of a block.
pub fn message_schedule(block: &[u8; 64], w: &mut [u32; 64])
    ensures { w.new ≡ schedule 48 block.now }
{
    load(block, w);
    expand(w);
}
