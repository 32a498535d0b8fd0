//! The lines of a check and of every refusal, put into a sink.
#![tactic(auto)]

mod counts;
mod lines;
mod path;
mod refusals;
mod words;
mod writing;

pub use lines::{with_fault, with_where};
pub use refusals::{write_no_sequence, write_refusal, write_too_long, write_usage};
pub use words::kind_text;
pub use writing::{write_check, write_check_fault};
