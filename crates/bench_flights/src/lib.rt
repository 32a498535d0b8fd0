//! Flights of register accesses, polls and commands of the probe over a bench.
#![tactic(auto)]

mod alone;
mod flights;
mod opening;
mod wire;

pub use alone::Alone;
pub use flights::{Flights, Polled};
pub use opening::{FlightsOver, refuse_begin};
pub use wire::Wire;
