//! What is seen of a run of debug access sequences, as definitions, with laws.
#![tactic(auto)]

pub mod laws;
