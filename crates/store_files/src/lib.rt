// The store in a file: its bytes, the file as a disk, and the lock beside it.
#![tactic(auto)]

mod file;
mod format;
mod lock;
mod opening;
mod problem;

pub use file::StoreFile;
pub use lock::Lock;
pub use opening::{create, open};
pub use problem::Problem;
