// The sixty-four rounds, eight in a function, so that the working variables stay in registers.
ghost use Rattle.std.specs.Prelude.{◌≡◌, ℕ, ◌+◌, ◌≤◌, List};
ghost use Rattle.compression.specs.Fips180.{round, rounds};

use crate::constants::ROUND_CONSTANTS;
use crate::words::{big_sigma_0, big_sigma_1, choose, majority};

#[tactic(auto, unfolding(crate::specs::Fips180::round))]
pub fn one_round(v: [u32; 8], k: u32, w: u32) -> [u32; 8]
    ensures { result ≡ round k w v }
{
    let [a, b, c, d, e, f, g, h] = v;
    let t1 = h
        .wrapping_add(big_sigma_1(e))
        .wrapping_add(choose(e, f, g))
        .wrapping_add(k)
        .wrapping_add(w);
    let t2 = big_sigma_0(a).wrapping_add(majority(a, b, c));
    [t1.wrapping_add(t2), a, b, c, d.wrapping_add(t1), e, f, g]
}

// The eight rounds from round t on.
fn eight_rounds(v: [u32; 8], w: &[u32; 64], t: usize) -> [u32; 8]
    requires { t + 8 ≤ 64 }
    ensures { (s : List ℕ) → v ≡ rounds t w.now s → result ≡ rounds (t + 8) w.now s }
{
    let v = one_round(v, ROUND_CONSTANTS[t], w[t]);
    let v = one_round(v, ROUND_CONSTANTS[t + 1], w[t + 1]);
    let v = one_round(v, ROUND_CONSTANTS[t + 2], w[t + 2]);
    let v = one_round(v, ROUND_CONSTANTS[t + 3], w[t + 3]);
    let v = one_round(v, ROUND_CONSTANTS[t + 4], w[t + 4]);
    let v = one_round(v, ROUND_CONSTANTS[t + 5], w[t + 5]);
    let v = one_round(v, ROUND_CONSTANTS[t + 6], w[t + 6]);
    one_round(v, ROUND_CONSTANTS[t + 7], w[t + 7])
}

pub fn all_rounds(start: [u32; 8], w: &[u32; 64]) -> [u32; 8]
    ensures { result ≡ rounds 64 w.now start }
{
    let mut v = start;
    for i in 0..8 {
        let next = eight_rounds(v, w, 8 * i);
        v = next;
    }
    v
}
