//! What comes of the rows of a table.
use crate::table::Row;
use std::alloc::{AllocError, Global};
use std::io;

/// How many rows of a table were tried, and how many differ.
#[derive(Clone, Copy, Drop)]
pub struct Tally {
    /// The rows that were tried.
    pub rows: usize,
    /// Those of which something else came.
    pub differ: usize,
}

// Bytes as text; those that are no text by their numbers.
fn show_bytes(alloc: Global, bytes: &[u8]) -> Result<String, AllocError> {
    match str::from_utf8(bytes) {
        Ok(text) => String::from_str(alloc, text),
        Err(_) => format!(in alloc; "{bytes:?}"),
    }
}

impl Tally {
    /// No row was tried.
    pub fn new() -> Tally {
        Tally { rows: 0, differ: 0 }
    }

    /// Counts a row of which this came. Where it differs from what is expected, the name of the table, the line, and both texts are
    /// printed.
    ///
    /// An error where standard output cannot be written, or memory is refused.
    pub fn compare(
        &mut self,
        rt: &HostRuntime,
        table: &str,
        row: &Row,
        written: &[u8],
    ) -> io::Result<()> {
        self.rows = self.rows.saturating_add(1);
        if written == row.expected.as_slice() {
            return Ok(());
        }
        self.differ = self.differ.saturating_add(1);
        let input = show_bytes(rt.alloc(), row.input.as_slice())?;
        let expected = show_bytes(rt.alloc(), row.expected.as_slice())?;
        let written = show_bytes(rt.alloc(), written)?;
        let line = row.line;
        println!(rt; "{table}:{line}: {input}\nexpected: {expected}\ncame:     {written}")
    }

    /// Prints the name of the table, the number of its rows, and whether all came as expected.
    ///
    /// An error where standard output cannot be written.
    pub fn print(&self, rt: &HostRuntime, table: &str) -> io::Result<()> {
        let rows = self.rows;
        let differ = self.differ;
        if differ == 0 {
            println!(rt; "{table} {rows} rows as expected")
        } else {
            println!(rt; "{table} {rows} rows, {differ} differ")
        }
    }
}
