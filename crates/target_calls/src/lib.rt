//! Calls that are asked of an access to a target, the places of their results, and what journal entries are for.
#![tactic(auto)]

pub mod accesses;
mod calls;
mod journal;
pub mod laws;

pub use calls::{Ask, Asked, Slot, Value};
pub use journal::Part;
