// The block function of SHA-256: its words, its constants, the schedule of a block, and the next hash value from one and a block.
#![tactic(auto)]

mod block;
mod constants;
mod ends;
pub mod laws;
mod rounds;
mod schedule;
mod words;

pub use block::compress;
pub use constants::{ROUND_CONSTANTS, initial};
pub use ends::schedule_of;
