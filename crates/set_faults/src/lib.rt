//! All faults of a set of debug access sequences that the first phase with a fault has.
#![tactic(auto)]

mod blocks;
mod call_faults;
mod calls;
mod code_faults;
mod controls;
mod exprs;
mod graph_calls;
pub mod laws;
mod phase;
mod phases;
mod sets;
mod site;
mod steps;
mod texts;

pub use phase::{Phase, SetFaults};
pub use phases::all_faults;
pub use site::Fault;
