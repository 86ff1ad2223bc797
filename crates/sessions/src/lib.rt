// What a command does and is answered, on values.
#![tactic(auto)]

pub mod reply;
pub mod session;

pub use reply::{look_text, root_text, sign_text, slot_text, state_text};
pub use session::Session;
