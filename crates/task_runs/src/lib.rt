//! Runs of a sequence over an access, with what follows it.
#![tactic(auto)]

mod followed;
mod following;
pub mod laws;
mod task;

pub use followed::Followed;
pub use task::{TaskEnded, run_task};
