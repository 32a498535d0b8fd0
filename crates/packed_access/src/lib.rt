//! An access to a target that collects register accesses in flights, and sends few packets.
#![tactic(auto)]

mod access;
mod asking;
mod calls;
mod confirmed;
mod forgiving;
mod issuing;
mod log;
mod opening;
mod over_bench;
mod planned;
mod polls;
mod results;
mod seen;
mod sender;
mod tails;
mod trying;

pub use access::{Packed, PackedAccess, Single};
