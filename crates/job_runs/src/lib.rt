//! Runs of a job over a bench, by any access.
#![tactic(auto)]

mod kept;
pub mod laws;
mod running;
mod writing;

pub use kept::Kept;
pub use running::{Ran, run_on, run_whole};
pub use writing::{write_run, write_whole};
