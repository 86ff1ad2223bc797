// What asking for a key is answered.
use keys::Refusal;

// No `Result`: one of the four answers is an error, and the promises are stated over all four.
#[derive(Clone, Copy, Debug, PartialEq, Eq)]
pub enum Done {
    // A key is given: its number. Both numbers of its slot are written.
    Key(u64),
    // Power failed before the key was reserved.
    Cut,
    // All keys have been given, and nothing is written.
    Empty,
    Refused(Refusal),
}
