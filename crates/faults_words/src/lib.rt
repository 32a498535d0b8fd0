//! The words of the command line of `dapseq_faults`.
#![tactic(auto)]

mod answer;
mod format;
mod line;
mod top;

pub use answer::FaultsCommand;
pub use format::Format;
pub use top::asked_of;
pub use word_options::WordsError;
