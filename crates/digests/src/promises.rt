// What is promised where the hash is SHA-256: each statement is the contract of a function, so that the crate is proved only with its proof.
ghost use Rattle.digests.specs.Promises.{OwnRowsBounded, LookedRowsBounded, OwnOrStrings, MustKnowStrings};

// The signer's rows are rows of numbers below 2^256.
#[tactic(auto, using(crate::proofs::Plain::own_rows_bounded_lem))]
pub fn own_rows_bounded()
    ensures { OwnRowsBounded }
{}

// So are those of a signature.
#[tactic(auto, using(crate::proofs::Plain::looked_rows_bounded_lem))]
pub fn looked_rows_bounded()
    ensures { LookedRowsBounded }
{}

// What is accepted is the signer's own, or two byte strings with the same SHA-256 are shown, with the place of each.
#[tactic(auto, using(crate::proofs::Strings::own_or_strings_lem))]
pub fn own_or_strings()
    ensures { OwnOrStrings }
{}

// Whoever shows an accepted signature that was not given has a number that was not given, or two byte strings are shown.
pub fn must_know_strings()
    ensures { MustKnowStrings }
{}
