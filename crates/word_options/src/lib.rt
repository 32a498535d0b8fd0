//! Options and flags of a command line, read by `clap`.
#![tactic(auto)]

mod answer;
mod args;
mod matching;
mod reading;

pub use answer::WordsError;
pub use args::{flag_arg, option_arg};
pub use matching::matches_by;
pub use reading::{is_set, needed_value, texts_of, value_of};
