//! Calls that are rows of a table.

use crate::program::{Program, answer, words_in};
use std::alloc::{AllocError, Global};
use test_tables::Row;

/// What a call with the words of a text writes of the job of a row, and then its status, as a line. An error where memory is refused
/// for that.
pub fn call_row<P: Program>(alloc: Global, words: &str, row: &Row) -> Result<Vec<u8>, AllocError> {
    let Ok(words) = words_in(alloc, words) else {
        return Vec::from_slice(alloc, b"out of memory\n");
    };
    let Ok((status, sink)) = answer::<P>(alloc, &words, row.input.as_slice(), &[], &[]) else {
        return Vec::from_slice(alloc, b"out of memory\n");
    };
    let mut written = Vec::from_slice(alloc, sink.bytes())?;
    let last = format!(in alloc; "status {status}\n")?;
    written.extend_from_slice(last.as_bytes())?;
    Ok(written)
}
