// What is promised, for every hash: each statement is the contract of a function, so that the crate is proved only with its proof.
ghost use Rattle.signer.specs.OneTree.{OwnOrCollision, NeverTwice, StaysSound, MustKnow};
ghost use Rattle.signer.specs.Promises.{OwnAccepted, OwnOrLocated, KeysRise, ReserveAsSign, OneRow, MustKnowLocated};

// What the signer signs is accepted.
#[tactic(auto, using(signatures::proofs::Own::own_accepted_lem))]
pub fn own_accepted()
    ensures { OwnAccepted }
{}

// What is accepted is the signer's own, or two rows are shown that hash to the same, with the place of each.
#[tactic(auto, using(signatures::proofs::Forgeries::own_or_located_lem))]
pub fn own_or_located()
    ensures { OwnOrLocated }
{}

// The same with no place.
#[tactic(auto, using(signatures::proofs::Forgeries::own_or_located_lem))]
pub fn own_or_collision()
    ensures { OwnOrCollision }
{}

// Whatever is asked, the keys that are given rise.
#[tactic(auto, using(crate::proofs::Runs::keys_rise_lem))]
pub fn keys_rise()
    ensures { KeysRise }
{}

// Whatever is asked, no key signs two rows of bits.
#[tactic(auto, using(crate::proofs::Runs::one_row_lem))]
pub fn one_row()
    ensures { OneRow }
{}

// Keys that are asked for alone rise with those that sign.
#[tactic(auto, using(crate::proofs::Entries::reserve_as_sign_lem))]
pub fn reserve_as_sign()
    ensures { ReserveAsSign }
{}

// The same over one tree.
#[tactic(auto, using(crate::proofs::OneTree::never_twice_lem))]
pub fn never_twice()
    ensures { NeverTwice }
{}

// A sound store stays sound, and the next key never gets smaller.
pub fn stays_sound()
    ensures { StaysSound }
{}

// Whoever shows an accepted signature that was not given has a number that was not given, or two rows are shown.
pub fn must_know_located()
    ensures { MustKnowLocated }
{}

// The same over one tree, with no place for the two rows.
#[tactic(auto, using(crate::proofs::Know::must_know_lem))]
pub fn must_know()
    ensures { MustKnow }
{}
