// What is promised of the store: each statement is the contract of a function, so that the crate is proved only with its proof.
ghost use Rattle.counter.specs.Promises.{StoreKept, LeftByWrites, TwoWrites, SlotCounts, NextIsLargest, FirstKey};

// A sound store stays sound wherever power fails, and the next key rises by one where it is given.
pub fn store_kept()
    ensures { StoreKept }
{}

// What is left is what the writes leave, in their order.
#[tactic(auto, using(crate::proofs::Kept::left_by_writes_lem))]
pub fn left_by_writes()
    ensures { LeftByWrites }
{}

// Power for two writes is as good as any more.
#[tactic(auto, using(crate::proofs::Kept::two_writes_lem))]
pub fn two_writes()
    ensures { TwoWrites }
{}

// The slot that counts holds the next key.
#[tactic(auto, using(crate::proofs::Kept::slot_counts_lem))]
pub fn slot_counts()
    ensures { SlotCounts }
{}

// The next key is the largest count that is right.
#[tactic(auto, using(crate::proofs::Kept::next_is_largest_lem))]
pub fn next_is_largest()
    ensures { NextIsLargest }
{}

// A new store gives key 0.
pub fn first_key()
    ensures { FirstKey }
{}
