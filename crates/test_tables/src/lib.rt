//! Tables of tests: files of rows, each an input and the text that is expected of it.
#![tactic(auto)]

mod escapes;
mod table;
mod tally;

pub use escapes::unescape;
pub use table::{Row, rows_of, table_of};
pub use tally::Tally;
