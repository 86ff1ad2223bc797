// The signer: the entry that signs with the store's next key, the entry that looks, and what is promised of them.
#![tactic(auto)]

pub mod entry;
pub mod promises;

pub use entry::{look, refuse, sign, sign_in, sign_kept};
