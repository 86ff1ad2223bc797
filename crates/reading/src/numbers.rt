// A line of numbers: a word, and each number in sixteens after one space.
ghost use Rattle.std.specs.Prelude.{◌≡◌, map, IfOk, IsErr};
ghost use Rattle.hash.specs.Value.{value_of};
ghost use Rattle.reading.specs.Reading.{ReadsAs};
ghost use Rattle.reading.specs.Spaced.{NumbersBegin};
ghost use Rattle.signatures.specs.Lines.{numbers_line};

use crate::spaced::read_words;
use crate::words::after;
use hash::Number;
use std::alloc::{AllocError, Global};

// The numbers of a line that begins with a word, if it is one. Memory is asked for only once a number was read.
pub fn read_numbers(
    heap: Global,
    word: &[u8],
    line: &[u8],
) -> Result<Option<Vec<Number>>, AllocError>
    ensures read { IfOk result (ReadsAs (λ vs. line.now ≡ numbers_line word.now vs) (λ v. map value_of v.items)) }
    ensures asked { IsErr result → NumbersBegin word.now line.now }
{
    match after(line, word) {
        Some(rest) => read_words(heap, rest),
        None => Ok(None),
    }
}
