//! The debug access sequences that apply for one device, variant and processor of a pack.
#![tactic(auto)]

mod copy;
mod effective_set;
mod entry;
mod fault;
pub mod laws;
mod levels;
mod place;
mod selection;
mod winners;

pub use effective_set::{effective, set_along};
pub use entry::{LevelKind, SeqEntries, SeqEntry, SeqSet};
pub use fault::ResolveFault;
pub use levels::{LevelRef, levels_of};
pub use place::DevicePlace;
pub use selection::Selection;
