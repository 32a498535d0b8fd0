//! The words of a trace of CMSIS-DAP packets.
#![tactic(auto)]

mod teller;
mod trace;

pub use teller::{Teller, slice_of};
pub use trace::{TraceEnd, trace_words};
