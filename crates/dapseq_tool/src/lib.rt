//! The top call: a check or a run of a debug access sequence over any source, sink and bench.
#![tactic(auto)]

mod answering;
mod asking;
mod auditing;
mod call;
mod generating;
pub mod laws;
mod memory;
mod packed;
mod runs;
mod status;

pub use call::{Over, dapseq_over};
pub use memory::{InMemory, dapseq_in_memory};
pub use packed::dapseq;
pub use status::Status;
