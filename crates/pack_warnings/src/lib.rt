//! All warnings of the sequences of all devices, variants and processors of a pack, each once with the sets that have it.
#![tactic(auto)]

mod answer;
mod keys;
pub mod laws;
mod lined;
mod merging;
mod warnings;

pub use answer::{FoundWarning, PackWarning};
pub use warnings::pack_warnings;
