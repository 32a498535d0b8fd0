//! An image of memory, written over any access to a target and read back.
#![tactic(auto)]

mod comparing;
mod ends;
pub mod laws;
mod loading;
mod piece;

pub use ends::{LoadEnd, Loaded};
pub use loading::{count_writes, load};
