// Tests of whole runs: what is printed for each line, for bytes that end, fail or cannot be read anywhere, and on a disk that fails.
#![tactic(auto)]

#[cfg(test)]
mod disks;
#[cfg(test)]
mod failing;
#[cfg(test)]
mod lent;
#[cfg(test)]
mod lines;
#[cfg(test)]
mod long;
#[cfg(test)]
mod looks;
#[cfg(test)]
mod numbers;
#[cfg(test)]
mod printed;
#[cfg(test)]
mod random;
#[cfg(test)]
mod requests;
#[cfg(test)]
mod rounds;
#[cfg(test)]
mod unreadable;
