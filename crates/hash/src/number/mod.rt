// A 256-bit number. It stands in a file of its own, since its ghost fields import what the file imports.
ghost use Rattle.std.specs.Prelude.{◌≡◌, ℕ, ◌<◌, length, slice_index};

// 32 bytes, the highest first: a natural number below 2^256.
// No `impl Model`: seen as a natural number it would not be below 2^256, and each function that gives one would have to say so.
#[derive(Clone, Copy, Debug)]
pub struct Number {
    bytes: [u8; 32],
    ghost sized: { length bytes ≡ 32 },
    ghost digits: { (i : ℕ) → slice_index bytes i < 256 },
}

mod arithmetic;
mod display;
mod equal;
mod methods;

pub use equal::numbers_are_their_bytes;
