// The counter of used keys: the store, its cells, reserving a key in them, and the slot that counts.
#![tactic(auto)]

mod answer;
mod cells;
mod history;
mod keeper;
mod lent;
pub mod promises;
mod reserving;
mod store;
mod write;

pub use answer::Done;
pub use cells::{Cells, NotWritten};
pub use history::History;
pub use keeper::{InMemory, Keeper};
pub use lent::LentCells;
pub use reserving::{refuse_store, reserve, reserve_in, slot};
pub use write::Write;
