//! Flights of register accesses over a bench: many accesses in few packets, cut at any place.
#![tactic(auto)]

mod accesses;
mod alone;
mod chain;
mod ends;
mod exchange;
mod flight;
mod flying;
pub mod laws;
mod packing;
mod part;
mod poll;
mod queue;
mod reply;
mod single;
mod slots;

pub use ends::{Cut, FlightEnd};
pub use flight::Flight;
pub use poll::PollAsk;
pub use probe_core::Config;
pub use slots::Slots;
