// Texts to bits, and what the lines of the program ask: commands, and the lines of a signature.
#![tactic(auto)]

pub mod bits;
pub mod command;
pub mod signature;

pub use bits::{digest, text_bits};
pub use command::{Command, read_command, takes_four};
pub use signature::{ReadError, ReadSignature, SignatureLines, read_key};
