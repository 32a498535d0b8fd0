//! The report of a run and the trace of its packets, put into a sink line by line.
#![tactic(auto)]

mod audit;
mod calls;
mod closes;
mod endings;
mod head;
mod lines;
mod put;
mod report;
mod target;
mod trace;
mod views;
mod words;

pub use audit::{audit_fault_text, audit_text, target_text};
pub use calls::with_call;
pub use closes::{differs_text, full_text, loaded_text, target_lines};
pub use endings::halted_text;
pub use put::TextEnd;
pub use report::report_text;
pub use trace::trace_text;
