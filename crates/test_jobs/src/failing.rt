//! Runs a stored job once for each call of its source, its sink and its bench, and lets that call fail.

use crate::answering::{Failing, answer_where_calls_fail};
use dap_base::{OutOfMemory, Words};
use dapseq_tool::Status;
use std::alloc::Global;

// More calls of one object than a stored job makes.
const MOST_CALLS: u32 = 10_000;

/// An object that a run is given, and whose calls may fail.
#[derive(Clone, Copy)]
pub enum Object {
    /// What the job is read from.
    Source,
    /// What the text is written to.
    Sink,
    /// The probe with its target.
    Bench,
}

impl Object {
    // How a run ends whose call of this object failed.
    fn status(self) -> Status {
        match self {
            Object::Source => Status::ReadFault,
            Object::Sink => Status::WriteFault,
            Object::Bench => Status::BenchFault,
        }
    }

    // The calls of this object that fail, and none of the others.
    fn failing(self, calls: &[u32]) -> Failing<'_> {
        match self {
            Object::Source => Failing {
                source: calls,
                sink: &[],
                bench: &[],
            },
            Object::Sink => Failing {
                source: &[],
                sink: calls,
                bench: &[],
            },
            Object::Bench => Failing {
                source: &[],
                sink: &[],
                bench: calls,
            },
        }
    }

    // Whether this may be written where a call of this object failed. It is the line of the source, or a part of the whole text from its
    // front. After that part comes the report of the bench, where the bench failed in the run.
    fn may_write(self, text: &[u8], whole: &[u8]) -> bool {
        match self {
            Object::Source => text == "end readfault\n".as_bytes(),
            Object::Sink => whole.starts_with(text),
            Object::Bench => whole.starts_with(before_fault(text)),
        }
    }
}

// What stands before the report of a bench that failed in the run.
fn before_fault(text: &[u8]) -> &[u8] {
    for start in 0..text.len() {
        if text[start..].starts_with("end benchfault".as_bytes()) {
            return &text[..start];
        }
    }
    text
}

/// How many calls of an object a run makes, where each of them, failing alone, ends the run with the status of the
/// object, and with what may be written then. `whole` is what the run writes where no call fails. `None` where a
/// run ends otherwise.
pub fn failing_calls(
    alloc: Global,
    words: &Words,
    job: &[u8],
    whole: &[u8],
    object: Object,
) -> Result<Option<u32>, OutOfMemory> {
    for call in 1..MOST_CALLS {
        let (status, sink) = answer_where_calls_fail(alloc, words, job, object.failing(&[call]))?;
        let text = sink.bytes();
        if status != object.status() {
            return Ok(if text == whole { Some(call - 1) } else { None });
        }
        if !object.may_write(text, whole) {
            return Ok(None);
        }
    }
    Ok(None)
}
