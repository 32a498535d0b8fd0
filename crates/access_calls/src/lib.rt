//! What runs know of an access to a target: calls are asked, and their results may come late.
#![tactic(auto)]

mod access;
mod ended;
mod issued;
pub mod laws;
mod marks;
mod not_begun;
mod over_bench;
mod scripted;
mod stop;
pub mod users;

pub use access::Access;
pub use ended::{Ended, Ending};
pub use issued::{Issued, StopReport, stop_report};
pub use marks::mark_last;
pub use not_begun::NotBegun;
pub use over_bench::OverBench;
pub use scripted::Scripted;
pub use stop::{Report, Stop, StopCause};
