//! The faults of one text of a debug access sequence: names, calls and their arguments,
//! declarations.
#![tactic(auto)]

mod blocks;
mod calls;
mod exprs;
mod fault;
pub mod laws;
mod names;
mod order;
mod scope;

pub use blocks::block_fault;
pub use calls::text_at;
pub use exprs::expr_fault;
pub use fault::{CodeFault, FaultKind};
pub use names::Names;
pub use scope::Scope;
