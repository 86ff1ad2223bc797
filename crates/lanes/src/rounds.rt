// The sixty-four rounds of eight blocks, eight in a function.
ghost use Rattle.std.specs.Prelude.{◌≡◌, ℕ, ◌+◌, ◌<◌, ◌≤◌, List, slice_index};
ghost use Rattle.compression.specs.Fips180.{round, rounds};
ghost use Rattle.lanes.specs.Lane.{lane, lane_of};

use crate::state::State;
use crate::words::{big_sigma_0, big_sigma_1, choose, majority};
use compression::ROUND_CONSTANTS;
use std::simd::prelude::*;

// The constant is added to the words first: where these are all the same, that is one addition.
#[inline(always)]
fn one_round(s: State, k: u32, w: u32x8) -> State
    ensures { (j : ℕ) → j < 8 → lane j result ≡ round k (slice_index w j) (lane j s) }
{
    let State {
        a,
        b,
        c,
        d,
        e,
        f,
        g,
        h,
    } = s;
    let t1 = h + big_sigma_1(e) + choose(e, f, g) + (w + u32x8::splat(k));
    let t2 = big_sigma_0(a) + majority(a, b, c);
    State {
        a: t1 + t2,
        b: a,
        c: b,
        d: c,
        e: d + t1,
        f: e,
        g: f,
        h: g,
    }
}

// The eight rounds from round t on.
fn eight_rounds(s: State, w: &[u32x8; 64], t: usize) -> State
    requires { t + 8 ≤ 64 }
    ensures { (j : ℕ) → j < 8 → (v : List ℕ) → lane j s ≡ rounds t (lane_of j w.now) v → lane j result ≡ rounds (t + 8) (lane_of j w.now) v }
{
    let s = one_round(s, ROUND_CONSTANTS[t], w[t]);
    let s = one_round(s, ROUND_CONSTANTS[t + 1], w[t + 1]);
    let s = one_round(s, ROUND_CONSTANTS[t + 2], w[t + 2]);
    let s = one_round(s, ROUND_CONSTANTS[t + 3], w[t + 3]);
    let s = one_round(s, ROUND_CONSTANTS[t + 4], w[t + 4]);
    let s = one_round(s, ROUND_CONSTANTS[t + 5], w[t + 5]);
    let s = one_round(s, ROUND_CONSTANTS[t + 6], w[t + 6]);
    one_round(s, ROUND_CONSTANTS[t + 7], w[t + 7])
}

pub fn all_rounds(start: State, w: &[u32x8; 64]) -> State
    ensures { (j : ℕ) → j < 8 → lane j result ≡ rounds 64 (lane_of j w.now) (lane j start) }
{
    let mut s = start;
    for i in 0..8 {
        let next = eight_rounds(s, w, 8 * i);
        s = next;
    }
    s
}

// The same with one schedule for all lanes.
fn eight_rounds_alike(s: State, w: &[u32; 64], t: usize) -> State
    requires { t + 8 ≤ 64 }
    ensures { (j : ℕ) → j < 8 → (v : List ℕ) → lane j s ≡ rounds t w.now v → lane j result ≡ rounds (t + 8) w.now v }
{
    let s = one_round(s, ROUND_CONSTANTS[t], u32x8::splat(w[t]));
    let s = one_round(s, ROUND_CONSTANTS[t + 1], u32x8::splat(w[t + 1]));
    let s = one_round(s, ROUND_CONSTANTS[t + 2], u32x8::splat(w[t + 2]));
    let s = one_round(s, ROUND_CONSTANTS[t + 3], u32x8::splat(w[t + 3]));
    let s = one_round(s, ROUND_CONSTANTS[t + 4], u32x8::splat(w[t + 4]));
    let s = one_round(s, ROUND_CONSTANTS[t + 5], u32x8::splat(w[t + 5]));
    let s = one_round(s, ROUND_CONSTANTS[t + 6], u32x8::splat(w[t + 6]));
    one_round(s, ROUND_CONSTANTS[t + 7], u32x8::splat(w[t + 7]))
}

pub fn all_rounds_alike(start: State, w: &[u32; 64]) -> State
    ensures { (j : ℕ) → j < 8 → lane j result ≡ rounds 64 w.now (lane j start) }
{
    let mut s = start;
    for i in 0..8 {
        let next = eight_rounds_alike(s, w, 8 * i);
        s = next;
    }
    s
}
