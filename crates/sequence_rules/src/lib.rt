//! What debug access sequences mean, as definitions over a machine of operations, and the code that runners share.
#![tactic(auto)]

mod arguments;
mod bindings;
mod bounds;
mod globals;
pub mod laws;
mod lines;
mod locals;
mod loops;
mod names;
mod parts;
mod polls;
mod ports;
mod sequences;
mod shared;
mod start;
mod units;

pub use arguments::text_of;
pub use bindings::Binding;
pub use bounds::{MOST_CALLS_DEEP, MOST_LINES, MOST_STEPS, MOST_UNITS};
pub use globals::Globals;
pub use lines::{load_line, message_line, query_line, value_line};
pub use loops::turn_count;
pub use parts::Locals;
pub use polls::poll_of;
pub use ports::Port;
pub use sequences::steps_of;
pub use shared::{SharedVariables, VariableValue};
pub use start::{add_declared, predefined_globals};
pub use units::{ap_unit, dp_unit, low_bits, memory_port, memory_unit, pins_command};
