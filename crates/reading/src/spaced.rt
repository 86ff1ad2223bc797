// Words, each after one space, read as values of one type.
ghost use Rattle.std.specs.Prelude.{◌≡◌, ℕ, ◌^◌, List, Some, IfOk, IsErr, MatchOption};
ghost use Rattle.reading.specs.Reading.{Reads, ReadsAs};
ghost use Rattle.reading.specs.Spaced.{FirstWord, Begins, CutsAt, SpacedWords};
ghost use Rattle.hash.specs.Hex.{hex};
ghost use Rattle.reading.specs.Spelling.{decimal_of};

use crate::decimal::read_decimal;
use crate::hex::read_hex;
use crate::words::{after, word_end};
use hash::Number;
use std::alloc::{AllocError, Global};

// A value that is written as one word.
pub trait FromWord: Sized + Drop {
    // The word and the value that it spells.
    ghost spells: { List ℕ → Self → Type 0 };

    // The value that a word spells, if it spells one.
    fn from_word(word: &[u8]) -> Option<Self>
        ensures { Reads (spells word.now) result };

    // Where to cut a text for the word that it begins with: behind it, if it spells a value, and else anywhere that what is cut off spells none.
    #[tactic(auto, using(crate::proofs::Cuts::cuts_at_end))]
    fn word_end(text: &[u8]) -> usize
        ensures { CutsAt spells text.now result }
    {
        word_end(text)
    }
}

// A decimal below 2^32.
impl FromWord for u32 {
    ghost spells = { λ w v. decimal_of (2 ^ 32) w ≡ Some v };

    fn from_word(word: &[u8]) -> Option<u32> {
        read_decimal(word)
    }
}

// A number in sixteens.
impl FromWord for Number {
    ghost spells = { λ w n. w ≡ hex n.bytes };

    fn from_word(word: &[u8]) -> Option<Number> {
        read_hex(word)
    }

    // A word that spells a number has 64 digits, so that no space has to be looked for.
    fn word_end(text: &[u8]) -> usize {
        if text.len() > 64 && text[64] != b' ' {
            return 0;
        }
        text.len().min(64)
    }
}

// The value of the word that a text begins with, after one space, and what follows the word. No `Reads`, since it is two values.
fn first_value<T: FromWord>(text: &[u8]) -> Option<(T, &[u8])>
    ensures { MatchOption result ((w : List ℕ) (v : T) (rest : List ℕ) → FirstWord T.spells text.now w v rest → ⊥) (λ p. (w : List ℕ) × FirstWord T.spells text.now w p.0 p.1.now) }
{
    let unspaced = after(text, b" ")?;
    let (word, rest) = unspaced.split_at(T::word_end(unspaced));
    Some((T::from_word(word)?, rest))
}

// The values of a text that is words, each after one space, if all of them spell one. Memory is asked for only once a word was read.
pub fn read_words<T: FromWord>(heap: Global, text: &[u8]) -> Result<Option<Vec<T>>, AllocError>
    ensures read { IfOk result (ReadsAs (SpacedWords T.spells text.now) (λ v. v.items)) }
    ensures asked { IsErr result → Begins T.spells text.now }
{
    let mut left = text;
    let mut values = Vec::new(heap);
    // No `split`, which would give what stands before the first space as a piece, too.
    while !left.is_empty() {
        let Some((value, rest)) = first_value::<T>(left) else {
            return Ok(None);
        };
        values.push(value)?;
        left = rest;
    }
    Ok(Some(values))
}
