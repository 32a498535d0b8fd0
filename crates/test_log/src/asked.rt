//! What words ask for, as text.

use dap_base::NameText;
use log_words::{LogCommand, WordsError, asked_of};
use std::alloc::{AllocError, Global};
use test_calls::words_in;

// A name that is given, or `-`.
fn name_or_dash(name: &Option<NameText>) -> &str {
    match name {
        Some(name) => name.as_str(),
        None => "-",
    }
}

// What is asked for.
fn show_asked(alloc: Global, asked: &LogCommand) -> Result<String, AllocError> {
    let selection = &asked.selection;
    let names = format!(in alloc;
        "device {} variant {} pname {} sequence {}",
        selection.device.as_str(),
        name_or_dash(&selection.variant),
        name_or_dash(&selection.pname),
        asked.sequence.as_str()
    )?;
    format!(in alloc; "{names} turns {} fail {}\n", asked.turns, asked.fail)
}

/// What the words of a text ask for, or `usage`, as a line.
pub fn asked_text(alloc: Global, text: &[u8]) -> Result<Vec<u8>, AllocError> {
    let text = str::from_utf8(text).unwrap_or("");
    let Ok(words) = words_in(alloc, text) else {
        return Vec::from_slice(alloc, b"out of memory\n");
    };
    match asked_of(alloc, &words) {
        Ok(asked) => Vec::from_slice(alloc, show_asked(alloc, &asked)?.as_bytes()),
        Err(WordsError::Usage) => Vec::from_slice(alloc, b"usage\n"),
        Err(WordsError::OutOfMemory) => Vec::from_slice(alloc, b"out of memory\n"),
    }
}
