// SHA-256 of messages, at once and as a stream, and as the hash of rows of numbers. Nothing is allocated.
#![tactic(auto)]

pub mod laws;
pub mod rows;
pub mod stream;

pub use rows::RowSha256;
pub use stream::Sha256;
