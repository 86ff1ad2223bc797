// The words of a line.
ghost use Rattle.std.specs.Prelude.{◌≡◌, ◌++◌};
ghost use Rattle.reading.specs.Reading.{ReadsAs};
ghost use Rattle.reading.specs.Spelling.{WordEnd};

// What follows a word that a line begins with.
#[tactic(auto, using(crate::proofs::Prefixes::prefixes))]
pub fn after<'a>(line: &'a [u8], word: &[u8]) -> Option<&'a [u8]>
    ensures { ReadsAs (λ rest. line.now ≡ word.now ++ rest) (λ rest. rest.now) result }
{
    line.strip_prefix(word)
}

// Where the first word ends: the place of the first space, or the line's length.
pub fn word_end(line: &[u8]) -> usize
    ensures { WordEnd line.now result }
{
    line.iter().position(|c| *c == b' ').unwrap_or(line.len())
}
