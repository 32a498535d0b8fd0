//! The text of a log: what is seen of a run, line by line.
#![tactic(auto)]

mod code;
mod entries;
pub mod laws;
mod lines;
mod log;
mod marks;
mod places;
mod units;

pub use log::{EventLog, Log, LogMark};
pub use places::with_spot;
