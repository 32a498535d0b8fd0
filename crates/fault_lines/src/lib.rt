//! The text of the faults of a pack, and of its warnings.
#![tactic(auto)]

mod counts;
mod lines;
mod name;
mod source;
mod warned;
mod warning_lines;
mod writing;

pub use lines::{message_line, name_of};
pub use warned::write_warned;
pub use warning_lines::{warning_kind_text, warning_message_line};
pub use writing::write_faults;
