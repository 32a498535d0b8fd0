//! The words of a packet of CMSIS-DAP and of its reply.
#![tactic(auto)]

mod accesses;
mod command_words;
mod exchange;
mod fate;
mod fault;
pub mod laws;
mod replies;
mod request_words;

pub use accesses::{Accesses, exchange_accesses};
pub use command_words::GivenReply;
pub use exchange::{Said, exchange_words};
pub use fate::Fate;
