//! A whole job, read from its JSON text, or its first fault.
#![tactic(auto)]

mod bench;
mod image;
mod job;
pub mod laws;
mod memory;
mod reading;
mod run;
mod target;
mod trace;
mod watch;

pub use job::{ImageJob, Job, JobRefusal, Watch, WatchItem};
pub use reading::job_of;
