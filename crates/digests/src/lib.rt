// What is promised where the hash is SHA-256: where two rows hash to the same, two different byte strings with one digest are shown.
#![tactic(auto)]

pub mod promises;
