//! The logged runner: runs a checked set of sequences over a target, each access alone and at once, and notes what is seen.
#![tactic(auto)]

mod calling;
mod controls;
mod logged;
mod noting;
mod places;
mod runner;
mod running;
mod steps;
mod values;
mod walked;

pub use logged::{Logged, LoggedEnding, run_logged};
