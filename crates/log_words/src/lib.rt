//! The words of the command line of `dapseq_log`.
#![tactic(auto)]

mod answer;
mod line;
mod top;
mod turns;

pub use answer::LogCommand;
pub use top::asked_of;
pub use word_options::WordsError;
