// Eight hash values side by side, a vector for each of their words.
ghost use Rattle.std.specs.Prelude.{◌≡◌, ℕ, ◌<◌, [], map, slice_index, slice_index_or};
ghost use Rattle.std.specs.List.{range_with_len};
ghost use Rattle.compression.specs.Fips180.{sums};
ghost use Rattle.lanes.specs.Lane.{lane, lane_of, first_eight};

use std::simd::prelude::*;

#[derive(Clone, Copy)]
pub struct State {
    pub a: u32x8,
    pub b: u32x8,
    pub c: u32x8,
    pub d: u32x8,
    pub e: u32x8,
    pub f: u32x8,
    pub g: u32x8,
    pub h: u32x8,
}

// Word i of each hash value.
fn across(states: &[[u32; 8]; 8], i: usize) -> u32x8
    requires { i < 8 }
    ensures { (j : ℕ) → j < 8 → slice_index result j ≡ slice_index (slice_index_or states.now j []) i }
{
    let [a, b, c, d, e, f, g, h] = states;
    u32x8::from_array([a[i], b[i], c[i], d[i], e[i], f[i], g[i], h[i]])
}

pub fn from_states(states: &[[u32; 8]; 8]) -> State
    ensures { (j : ℕ) → j < 8 → lane j result ≡ first_eight (slice_index_or states.now j []) }
{
    State {
        a: across(states, 0),
        b: across(states, 1),
        c: across(states, 2),
        d: across(states, 3),
        e: across(states, 4),
        f: across(states, 5),
        g: across(states, 6),
        h: across(states, 7),
    }
}

// The hash value in lane j, from the eight vectors as arrays.
fn down(vectors: &[[u32; 8]; 8], j: usize) -> [u32; 8]
    requires { j < 8 }
    ensures { result ≡ lane_of j vectors.now }
{
    let [a, b, c, d, e, f, g, h] = vectors;
    [a[j], b[j], c[j], d[j], e[j], f[j], g[j], h[j]]
}

pub fn into_states(s: State) -> [[u32; 8]; 8]
    ensures { result ≡ map (λ j. lane j s) (range_with_len 0 8) }
{
    let vectors = [
        s.a.to_array(),
        s.b.to_array(),
        s.c.to_array(),
        s.d.to_array(),
        s.e.to_array(),
        s.f.to_array(),
        s.g.to_array(),
        s.h.to_array(),
    ];
    [
        down(&vectors, 0),
        down(&vectors, 1),
        down(&vectors, 2),
        down(&vectors, 3),
        down(&vectors, 4),
        down(&vectors, 5),
        down(&vectors, 6),
        down(&vectors, 7),
    ]
}

pub fn add(s: State, t: State) -> State
    ensures { (j : ℕ) → j < 8 → lane j result ≡ sums (lane j s) (lane j t) }
{
    State {
        a: s.a + t.a,
        b: s.b + t.b,
        c: s.c + t.c,
        d: s.d + t.d,
        e: s.e + t.e,
        f: s.f + t.f,
        g: s.g + t.g,
        h: s.h + t.h,
    }
}
