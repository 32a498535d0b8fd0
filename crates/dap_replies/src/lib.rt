//! Replies to the commands of CMSIS-DAP, read in place.
#![tactic(auto)]

pub mod laws;
mod progress;
mod replies;

pub use replies::{ReplyView, reply_view};
