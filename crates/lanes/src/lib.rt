// The block function of SHA-256 for eight blocks side by side, one to a lane of each vector. Every lane is proved against the definitions that the function for one block is proved against.
#![tactic(auto)]

mod block;
mod rounds;
mod schedule;
mod state;
mod words;

pub use block::compress_eight;
