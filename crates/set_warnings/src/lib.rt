//! The warnings of a set of debug access sequences: what may be meant so, and often is not.
#![tactic(auto)]

mod assigned;
mod called;
pub mod laws;
mod sequences;
mod sets;
mod site;
mod steps;
mod waits;
mod warning;

pub use sets::set_warnings;
pub use warning::{Warning, WarningKind};
