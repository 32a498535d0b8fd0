//! What becomes of calls whose register accesses lie in a flight: laws over lists of entries.
#![tactic(auto)]

pub mod laws;
