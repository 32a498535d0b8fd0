//! Makes a call once for each call of its source and its sink, and lets that call fail.

use crate::program::{Program, answer};
use dap_base::{MemorySink, OutOfMemory, Words};
use std::alloc::Global;

// More calls of one object than a stored call makes.
const MOST_CALLS: u32 = 10_000;

// The exit statuses of a call whose source or whose sink failed.
const READ_FAULT: u8 = 5;

const WRITE_FAULT: u8 = 6;

/// An object that a call is given, and whose calls may fail.
#[derive(Clone, Copy)]
pub enum Object {
    /// What the job is read from.
    Source,
    /// What the text is written to.
    Sink,
}

impl Object {
    // The exit status of a call in which this object failed.
    fn status(self) -> u8 {
        match self {
            Object::Source => READ_FAULT,
            Object::Sink => WRITE_FAULT,
        }
    }

    // The call where these calls of this object fail, and none of the other.
    fn answer<P: Program>(
        self,
        alloc: Global,
        words: &Words,
        job: &[u8],
        calls: &[u32],
    ) -> Result<(u8, MemorySink), OutOfMemory> {
        match self {
            Object::Source => answer::<P>(alloc, words, job, calls, &[]),
            Object::Sink => answer::<P>(alloc, words, job, &[], calls),
        }
    }

    // Whether this may be written where a call of this object failed: the line of the source, or a part of the whole text from its
    // front.
    fn may_write(self, text: &[u8], whole: &[u8]) -> bool {
        match self {
            Object::Source => text == "end readfault\n".as_bytes(),
            Object::Sink => whole.starts_with(text),
        }
    }
}

/// How many calls of an object a call makes, where each of them, failing alone, ends the call with the status of the object, and with
/// what may be written then. `whole` is what the call writes where none fails. `None` where a call ends otherwise.
pub fn failing_calls<P: Program>(
    alloc: Global,
    words: &Words,
    job: &[u8],
    whole: &[u8],
    object: Object,
) -> Result<Option<u32>, OutOfMemory> {
    for call in 1..MOST_CALLS {
        let (status, sink) = object.answer::<P>(alloc, words, job, &[call])?;
        let text = sink.bytes();
        if status != object.status() {
            return Ok(if text == whole { Some(call - 1) } else { None });
        }
        if !object.may_write(text, whole) {
            return Ok(None);
        }
    }
    Ok(None)
}
