//! What follows a sequence: calls, lines and an end.
#![tactic(auto)]

mod close;
pub mod laws;

pub use close::Close;
