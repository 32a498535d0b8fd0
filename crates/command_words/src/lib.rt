//! The words of the command line, as a command.
#![tactic(auto)]

mod answer;
pub mod laws;
mod line;
mod mode;
mod numeral;
mod options;
mod table;
mod top;

pub use answer::Command;
pub use top::command_of;
pub use word_options::WordsError;
