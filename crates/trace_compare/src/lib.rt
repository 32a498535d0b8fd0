//! A trace of CMSIS-DAP packets in words, and the difference of two.
#![tactic(auto)]

mod call;
mod compare;
mod counter;
mod counts;
mod exchange;
mod file;
mod put;
mod summary;
mod texts;
mod trace;
mod traces;

pub use call::{CompareStatus, dapseq_words};
pub use compare::{CompareEnd, compare_traces};
pub use file::{FileSource, NamedFile};
