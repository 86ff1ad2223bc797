// How words are read, and the numbers that they spell.
#![tactic(auto)]

pub mod decimal;
pub mod hex;
pub mod laws;
pub mod numbers;
pub mod spaced;
pub mod words;

pub use decimal::{FromDecimal, read_decimal};
pub use hex::read_hex;
pub use numbers::read_numbers;
pub use spaced::{FromWord, read_words};
pub use words::{after, word_end};
