//! Numbers and lists of names, and what the other forms read of their inputs.
use dap_base::{ItemList, NameText, OutOfMemory, Words, number};
use std::alloc::{AllocError, Global};

pub(crate) fn no_memory(_: OutOfMemory) -> AllocError {
    AllocError
}

/// The numbers of a text; a word that is none counts for nothing.
pub(crate) fn numbers_of(alloc: Global, text: &str) -> Result<ItemList<u64>, OutOfMemory> {
    let mut numbers = ItemList::new(alloc);
    for word in text.split_whitespace() {
        if let Some(number) = number(word) {
            numbers.push(number)?;
        }
    }
    Ok(numbers)
}

/// The words of a text, between single spaces.
pub(crate) fn words_of(alloc: Global, text: &str) -> Result<Words, OutOfMemory> {
    let mut words = Words::new(alloc);
    for word in text.split(' ') {
        words.push(NameText::new(alloc, word)?)?;
    }
    Ok(words)
}

/// The number that a text is, or `none`.
pub(crate) fn number_text(alloc: Global, text: &str) -> Result<String, AllocError> {
    match number(text) {
        Some(number) => format!(in alloc; "{number}"),
        None => String::from_str(alloc, "none"),
    }
}

// The item at an index, or `none`.
fn item_text(words: &Words, index: usize) -> &str {
    match words.get(index) {
        Some(word) => word.as_str(),
        None => "none",
    }
}

// How many items a list has, each of them, and what is at the end.
fn items_text(alloc: Global, words: &Words) -> Result<String, AllocError> {
    let count = words.len();
    let mut text = format!(in alloc; "{count}:")?;
    for index in 0..count.saturating_add(1) {
        text.push_str(" ")?;
        text.push_str(item_text(words, index))?;
    }
    Ok(text)
}

// A list of the names of a text.
fn names_of(alloc: Global, text: &str) -> Result<Words, OutOfMemory> {
    let mut names = Words::new(alloc);
    for name in text.split_whitespace() {
        names.push(NameText::new(alloc, name)?)?;
    }
    Ok(names)
}

/// How many names a list has that holds those of a text, and each of them; `none` is at the end.
pub(crate) fn list_text(alloc: Global, text: &str) -> Result<String, AllocError> {
    let names = names_of(alloc, text).map_err(no_memory)?;
    if names.is_empty() {
        return String::from_str(alloc, "empty");
    }
    items_text(alloc, &names)
}
