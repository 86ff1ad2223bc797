// What holds of the lines of a text: the statement is the contract of a function, so that the crate is proved only with its proof.
ghost use Rattle.reading.specs.Newlines.{LinesJoined};

// A text is its lines, with a newline behind each.
pub fn lines_joined()
    ensures { LinesJoined }
{}
