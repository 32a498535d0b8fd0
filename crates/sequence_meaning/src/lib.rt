//! The direct runner: runs a checked set of sequences over a target, each access alone and at once.
#![tactic(auto)]

mod asking;
mod calling;
mod controls;
mod direct;
mod end;
mod ended;
mod functions;
mod held;
pub mod laws;
mod memory;
mod probe;
mod registers;
mod runner;
mod running;
mod steps;
mod values;
mod variables;

pub use direct::{run_direct, run_recorded};
pub use ended::{Direct, Recorded};
