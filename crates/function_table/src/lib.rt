//! The functions that debug access sequences call, the formats of their messages, and the predefined
//! variables.
#![tactic(auto)]

mod format;
mod function;
pub mod laws;
mod variables;

pub use format::{Conversion, FormatPiece, NumberForm, conversions, front_piece};
pub use function::{Function, ParameterKind, ResultKind, function_of};
pub use variables::PREDEFINED;
