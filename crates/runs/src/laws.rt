// What holds of turns and runs: each statement is the contract of a function, so that the crate is proved only with its proof.
ghost use Rattle.runs.specs.Laws.{LinesCut, AskedOnce, AnsweredOnce, PrintedOnce, KeysRiseAcross};

// Turns are the lines again, and each is a line or a `look` with those behind it.
pub fn lines_cut()
    ensures { LinesCut }
{}

// The levels, bits and seed that are asked with are determined by the turns before.
pub fn asked_once()
    ensures { AskedOnce }
{}

// What is answered is determined by the lines, where the store is in memory.
pub fn answered_once()
    ensures { AnsweredOnce }
{}

// What is printed is determined by the input, as far as it is printed, where the store is in memory.
pub fn printed_once()
    ensures { PrintedOnce }
{}

// Keys rise over all runs on one store that lies on a disk.
pub fn keys_rise_across()
    ensures { KeysRiseAcross }
{}
