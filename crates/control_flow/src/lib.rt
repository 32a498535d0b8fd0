//! Runs a checked set of sequences over an access to a target, whose results may come late.
#![tactic(auto)]

mod arguments;
mod calling;
mod closing;
mod controls;
mod evaluating;
mod operators;
mod polling;
mod runner;
mod running;
mod start;
mod steps;
mod values;

pub use running::run;
