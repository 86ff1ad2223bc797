// Why something is turned away. Of several the first in this list applies, and what is turned away changes nothing.
ghost use Rattle.std.specs.Prelude.{◌≡◌, Some};
ghost use Rattle.keys.specs.Refusals.{refusal_number, refusal_place, refusal_spelled};

use std::error::Error;
use std::fmt;

#[derive(Clone, Copy, Debug, PartialEq, Eq)]
pub enum Refusal {
    // More levels than a tree may have: how many.
    Levels(u64),
    // A store that is not four numbers: how many; or of which no slot is right: 0.
    Store(u64),
    // A next key above the number of keys: the key.
    NextKey(u64),
    // No bits, or more than a key may have: how many.
    Bits(u64),
    // A line that cannot be read: its number, from 0.
    Line(u64),
}

impl Refusal {
    // The number in the list of refusals. By a `match`, since a variant that holds a value has no number of its own.
    pub fn number(self) -> u64
        ensures { result ≡ refusal_number self }
    {
        match self {
            Refusal::Levels(_) => 1,
            Refusal::Store(_) => 2,
            Refusal::NextKey(_) => 3,
            Refusal::Bits(_) => 4,
            Refusal::Line(_) => 5,
        }
    }

    // The place that is told with it.
    pub fn place(self) -> u64
        ensures { result ≡ refusal_place self }
    {
        match self {
            Refusal::Levels(at)
            | Refusal::Store(at)
            | Refusal::NextKey(at)
            | Refusal::Bits(at)
            | Refusal::Line(at) => at,
        }
    }
}

// Its number, a space and its place.
impl fmt::Display for Refusal {
    ghost output = { λ r. Some (refusal_spelled r) };

    fn fmt<W: fmt::Write>(&self, f: &mut fmt::Formatter<W>) -> fmt::Result {
        write!(f, "{} {}", self.number(), self.place())
    }
}

impl Error for Refusal {}
