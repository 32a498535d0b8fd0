//! One call of a function over a target, with what is seen of it noted in a log.
#![tactic(auto)]

mod asking;
mod functions;
mod held;
mod lines;
mod memory;
mod probe;
mod registers;

pub use asking::ask_poll;
pub use functions::make_call;
pub use held::{Held, LoggedEnd, Stopped};
