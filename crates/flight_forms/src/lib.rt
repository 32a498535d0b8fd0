//! The forms in which accesses are packed into packets, and what each of them does.
#![tactic(auto)]

mod form;
pub mod laws;
mod packing;
mod size;

pub use form::Form;
pub use packing::{put_guarded_requests, put_requests};
pub use size::{FlightSize, first_part};
