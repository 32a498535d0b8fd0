//! Calls to a target, each made alone and at once: one access, or one command of the probe.
#![tactic(auto)]

mod accesses;
mod at_once;
mod list;
mod made;
mod plain;

pub use at_once::{call_at_once, command_at_once};
pub use list::CallList;
pub use made::Made;
