//! For tests: whole calls of a program that takes words, a source and a sink. Stored jobs, rows of tables, and objects that fail.
#![tactic(auto)]

mod cases;
mod failing;
mod program;
mod rows;

pub use cases::{run_case, run_failing};
pub use program::{Program, words_in};
pub use rows::call_row;
