// The command line of the program: which store it is asked for, and the run on it.
#![tactic(auto)]

mod arguments;
mod help;
mod serving;

pub use arguments::{Invocation, read_arguments};
pub use serving::{make_file, run_in_file, start};
