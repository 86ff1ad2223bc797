// Numbers of 256 bits, and the hash over rows of numbers as a trait. Keys, trees and signatures are made and looked at with any hash that meets it.
#![tactic(auto)]

pub mod number;
pub mod purpose;
pub mod row;

pub use number::Number;
pub use purpose::Purpose;
pub use row::RowHasher;
