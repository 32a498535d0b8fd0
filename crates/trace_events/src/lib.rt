//! The events of a trace of CMSIS-DAP: packets with their replies, and all other lines.
#![tactic(auto)]

mod bytes;
mod entry;
mod event;
mod events;
mod input;
mod reading;

pub use bytes::PacketBytes;
pub use event::Event;
pub use events::{Events, ReadEnd};
