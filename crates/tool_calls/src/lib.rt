//! What a call of a program does, by its words, its source and its sink.
#![tactic(auto)]

mod unasked;

pub use unasked::Unasked;
