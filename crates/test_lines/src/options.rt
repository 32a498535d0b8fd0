//! The words of a form.
use dap_base::{NameText, OutOfMemory};
use job_check::Own;
use sequence_resolve::Selection;
use std::alloc::{AllocError, Global};

/// What the words of a form say of its rows.
#[derive(Drop)]
pub struct Options<'a> {
    /// The device, its variant and the processor; the device is D1 where no word names one.
    pub selection: Selection,
    /// The sequence that is to run.
    pub sequence: &'a str,
    /// What the mode needs of the job besides.
    pub own: Own,
    /// The number of the put of the sink that fails, from 1; 0 where none does.
    pub put: u32,
}

/// The refusal of memory, as the standard library names it.
pub fn refuse_memory(_: OutOfMemory) -> AllocError {
    AllocError
}

// What stands after `NAME=` in the word of this name.
fn word_named<'a>(words: &'a str, name: &str) -> Option<&'a str> {
    for word in words.split(',') {
        if let Some((key, value)) = word.split_once('=') {
            if key == name {
                return Some(value);
            }
        }
    }
    None
}

fn optional_name(alloc: Global, name: Option<&str>) -> Result<Option<NameText>, AllocError> {
    match name {
        Some(name) => Ok(Some(NameText::new(alloc, name).map_err(refuse_memory)?)),
        None => Ok(None),
    }
}

/// The device, its variant and the processor that words name.
pub fn selection_of(alloc: Global, words: &str) -> Result<Selection, AllocError> {
    let device = word_named(words, "device").unwrap_or("D1");
    Ok(Selection {
        device: NameText::new(alloc, device).map_err(refuse_memory)?,
        variant: optional_name(alloc, word_named(words, "variant"))?,
        pname: optional_name(alloc, word_named(words, "pname"))?,
    })
}

// A number, and 0 in place of anything else.
fn number_of(text: &str) -> u32 {
    text.parse::<u32>().unwrap_or(0)
}

fn own_of(words: &str) -> Own {
    match word_named(words, "own") {
        Some("image") => Own::Image,
        _ => Own::Nothing,
    }
}

/// Reads words as `device=D1`, `variant=V1`, `pname=P`, `sequence=Main`, `own=image` and `put=1`, with commas between them, so that
/// names may have spaces or be empty.
pub fn options_of<'a>(alloc: Global, words: &'a str) -> Result<Options<'a>, AllocError> {
    Ok(Options {
        selection: selection_of(alloc, words)?,
        sequence: word_named(words, "sequence").unwrap_or(""),
        own: own_of(words),
        put: word_named(words, "put").map_or(0, number_of),
    })
}
