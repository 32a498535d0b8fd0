//! The lines of places of a set of sequences.
#![tactic(auto)]

mod lines;
mod parts;
mod texts;

pub use lines::Lines;
pub use parts::part_number;
pub use texts::{name_of, same_text};
