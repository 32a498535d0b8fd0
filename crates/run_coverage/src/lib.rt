//! The coverage of a run of a debug access sequence.
#![tactic(auto)]

mod calls;
mod coverage;
mod items;
pub mod laws;
mod ran;
mod reach;
mod text;
mod words;

pub use coverage::Coverage;
