//! The top call: all faults of a pack, over any source and sink.
#![tactic(auto)]

mod answering;
mod asking;
mod call;
pub mod laws;
mod packs;
mod status;

pub use call::dapseq_faults;
pub use status::FaultsStatus;
