// Whole runs of the program: lines in, lines out.
#![tactic(auto)]

pub mod laws;
pub mod program;
pub mod streams;
pub mod turns;

pub use program::Program;
pub use streams::{run, run_on, run_on_disk};
