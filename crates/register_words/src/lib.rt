//! The registers of ADIv5 in words: their names, their bits, and what is known of them.
#![tactic(auto)]

mod access;
mod flags;
mod known;
mod register;

pub use access::{RegisterAccess, register_at};
pub use flags::{line_name, with_abort, with_csw, with_ctrl_stat, with_pins, with_select};
pub use known::{KnownPort, KnownRegisters};
pub use register::{Register, register_of, with_register};
