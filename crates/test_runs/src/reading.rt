//! What the forms read of their inputs.
use dap_base::{OutOfMemory, number};
use std::alloc::{AllocError, Global};

pub(crate) fn no_memory(_: OutOfMemory) -> AllocError {
    AllocError
}

/// The number that a word is; 0 where it is none.
pub(crate) fn number_in(word: &str) -> u64 {
    number(word).unwrap_or(0)
}

/// The low 32 bits of the number that a word is.
pub(crate) fn word_in(word: &str) -> u32 {
    (number_in(word) & 0xFFFF_FFFF) as u32
}

/// The numbers of a text; a word that is none counts for nothing.
pub(crate) fn numbers_in(alloc: Global, text: &str) -> Result<Vec<u64>, AllocError> {
    let mut numbers = Vec::new(alloc);
    for word in text.split_whitespace() {
        if let Some(number) = number(word) {
            numbers.push(number)?;
        }
    }
    Ok(numbers)
}

/// What is before a quotation mark, and the text after it.
pub(crate) fn head_and_text(input: &str) -> (&str, &str) {
    input.split_once('"').unwrap_or((input, ""))
}
