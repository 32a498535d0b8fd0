//! The faults and the warnings of a pack as JSON, and as a log of SARIF.
#![tactic(auto)]

mod columns;
mod fault;
mod parts;
mod sarif;
mod warned_sarif;
mod warning;
mod whole;
mod writing;

pub use fault::fault_value;
pub use sarif::{sarif_value, write_sarif};
pub use warned_sarif::{warned_log, write_warned_sarif};
pub use warning::{warned_value, warning_value, write_warned_json};
pub use whole::{faults_value, write_json};
