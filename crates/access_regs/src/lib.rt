//! Plans for the register accesses of units: what the target already has is not written again.
#![tactic(auto)]

mod known;
pub mod laws;
mod managed;
mod plan;
mod planner;
mod values;

pub use known::{Known, Unsettled};
pub use managed::Managed;
pub use plan::Plan;
pub use planner::Planner;
