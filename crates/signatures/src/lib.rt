// Signatures: what one is, signing with a given key, and verifying one.
#![tactic(auto)]

pub mod lines;
pub mod room;
pub mod signing;
pub mod verifying;
pub mod view;

pub use lines::SpacedNumbers;
pub use room::SignatureRoom;
pub use signing::sign_with;
pub use verifying::verify;
pub use view::SignatureView;
