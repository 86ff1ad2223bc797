// Tests of the store on a disk: every call of a simulated disk fails in turn, in each way that it may, and a reader begins anew on what it left.
#![tactic(auto)]

#[cfg(test)]
mod disk;
#[cfg(test)]
mod failures;
#[cfg(test)]
mod lives;
