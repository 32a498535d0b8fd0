//! A kept trace against a job: whether its packets and replies are a run of the job's probe.
#![tactic(auto)]

mod auditing;
mod entry;
pub mod laws;
mod reading;

pub use auditing::{AuditFault, Audited, audit};
pub use entry::{Bytes, Entries, Entry, TraceTexts};
pub use reading::{entries_of, entry_in, is_entry_text};
