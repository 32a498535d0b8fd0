//! For tests: the benches that tests run over, as the settings of a form say, and commands of the probe by name.
#![tactic(auto)]

mod begun;
mod commands;
mod jobs;
mod requests;
mod scripted;
mod shown;

pub use begun::{failing_bench, load_into, memory_bench, scripted_bench};
pub use commands::{command_of, is_command};
pub use jobs::job_of;
pub use requests::{put_request, put_requests, request_of, requests_of};
pub use scripted::Scripted;
pub use shown::put_log;
