//! The top call: the log of a run, over any source and sink.
#![tactic(auto)]

mod answering;
mod asking;
mod call;
mod ending;
pub mod laws;
mod log;
mod status;
mod text;

pub use call::dapseq_log;
pub use status::LogStatus;
