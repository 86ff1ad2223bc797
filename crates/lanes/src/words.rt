// The functions of words, on eight words at once.
ghost use Rattle.std.specs.Prelude.{◌≡◌, ℕ, ◌<◌, slice_index};
ghost use Rattle.compression.specs.Fips180.{rotr, ch, maj, Σ₀, Σ₁, σ₀, σ₁};

use std::simd::prelude::*;

// Vectors have no rotation of lanes: it is two shifts.
#[inline(always)]
fn rotate_right(x: u32x8, n: u32) -> u32x8
    requires { (0 < n) × (n < 32) }
    ensures { (j : ℕ) → j < 8 → slice_index result j ≡ rotr n (slice_index x j) }
{
    (x >> u32x8::splat(n)) | (x << u32x8::splat(32 - n))
}

// As the standard has it, since `!x & z` is one operation on vectors.
pub fn choose(x: u32x8, y: u32x8, z: u32x8) -> u32x8
    ensures { (j : ℕ) → j < 8 → slice_index result j ≡ ch (slice_index x j) (slice_index y j) (slice_index z j) }
{
    (x & y) ^ (!x & z)
}

// In fewer operations than the standard has. What is `x ^ y` here is `y ^ z` in the next round.
pub fn majority(x: u32x8, y: u32x8, z: u32x8) -> u32x8
    ensures { (j : ℕ) → j < 8 → slice_index result j ≡ maj (slice_index x j) (slice_index y j) (slice_index z j) }
{
    y ^ ((x ^ y) & (y ^ z))
}

pub fn big_sigma_0(x: u32x8) -> u32x8
    ensures { (j : ℕ) → j < 8 → slice_index result j ≡ Σ₀ (slice_index x j) }
{
    rotate_right(x, 2) ^ rotate_right(x, 13) ^ rotate_right(x, 22)
}

pub fn big_sigma_1(x: u32x8) -> u32x8
    ensures { (j : ℕ) → j < 8 → slice_index result j ≡ Σ₁ (slice_index x j) }
{
    rotate_right(x, 6) ^ rotate_right(x, 11) ^ rotate_right(x, 25)
}

pub fn small_sigma_0(x: u32x8) -> u32x8
    ensures { (j : ℕ) → j < 8 → slice_index result j ≡ σ₀ (slice_index x j) }
{
    rotate_right(x, 7) ^ rotate_right(x, 18) ^ (x >> u32x8::splat(3))
}

pub fn small_sigma_1(x: u32x8) -> u32x8
    ensures { (j : ℕ) → j < 8 → slice_index result j ≡ σ₁ (slice_index x j) }
{
    rotate_right(x, 17) ^ rotate_right(x, 19) ^ (x >> u32x8::splat(10))
}
