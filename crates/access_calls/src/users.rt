//! Small users of an access: how a function above it states and proves what it does.
mod copy;
mod held;

pub use copy::{CopyEnd, copy_word};
pub use held::{AccessOwner, flush_lent};
