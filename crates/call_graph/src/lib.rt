//! Calls among sequences: the first one in a cycle, and the first one that begins too deep a chain.
#![tactic(auto)]

mod cycle;
mod depth;
mod graph;
pub mod laws;
mod marks;
mod ranks;
mod walk;

pub use cycle::{cycle_candidates, first_cycle, reaches};
pub use depth::{TOO_DEEP, chain_beginnings, first_deep};
pub use graph::{CallGraph, CallSpot};
pub use marks::{all_marks, is_marked};
pub use ranks::{fall, ranks_of};
