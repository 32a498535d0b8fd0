//! The check of the sequences that a job has for one device.
#![tactic(auto)]

mod answer;
mod checking;
pub mod laws;
mod own;
mod running;
mod values;

pub use answer::{CheckRefusal, DbgconfKind, Refusal, ValidSet};
pub use checking::{read_job, valid_set, valid_set_of};
pub use own::{JobImage, Own};
pub use running::{RunRefusal, ValidRun, valid_run, valid_run_of};
