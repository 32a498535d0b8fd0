//! Calls of functions over an access to a target, whose results may come late.
#![tactic(auto)]

mod asking;
mod end;
mod held;
mod kinds;
mod lines;
mod memory;
mod performing;
mod ports;
mod probe;
mod registers;
mod uses;

pub use asking::ask;
pub use end::End;
pub use held::Held;
pub use performing::make_call;
pub use ports::use_debug_port;
pub use uses::{use_both, use_value, use_values};
