//! Runs stored jobs in memory, and compares what is written with what is stored beside them.

use crate::answering::{answer, answer_by_single, answer_over_silent, words_of};
use crate::auditing::{accepted_text, with_trace};
use crate::failing::{Object, failing_calls};
use dap_base::{OutOfMemory, Words};
use std::io::ErrorKind;
use std::{fs, io};

// A stored job: its bytes, the words it is run with, and the text that is expected.
#[derive(Drop)]
struct Stored {
    job: Vec<u8>,
    words: Words,
    text: Vec<u8>,
}

fn no_memory(_: OutOfMemory) -> io::Error {
    io::Error::from(ErrorKind::OutOfMemory)
}

// Reads `NAME.json`, `NAME.json.args` and `NAME.json.stdout`.
fn read_stored(rt: &HostRuntime, name: &str) -> io::Result<Stored> {
    let job = fs::read(rt, format!(in rt.alloc(); "{name}.json")?)?;
    let args = fs::read_to_string(rt, format!(in rt.alloc(); "{name}.json.args")?)?;
    let text = fs::read(rt, format!(in rt.alloc(); "{name}.json.stdout")?)?;
    let words = words_of(rt.alloc(), args.as_str()).map_err(no_memory)?;
    Ok(Stored { job, words, text })
}

// How a text is to the one that is expected.
fn compare_texts(written: &[u8], expected: &[u8]) -> &'static str {
    if written == expected {
        "as expected"
    } else {
        "differs"
    }
}

/// Runs the job `NAME.json` of the folder that the program runs in, with the words of `NAME.json.args`, one a line. It prints the
/// name, the exit status, and `as expected` where what was written is the content of `NAME.json.stdout`, else `differs`.
///
/// An error where a file cannot be read, standard output cannot be written, or memory is refused.
pub fn run_case(rt: &HostRuntime, name: &str) -> io::Result<()> {
    let stored = read_stored(rt, name)?;
    let (status, sink) = answer(rt.alloc(), &stored.words, &stored.job).map_err(no_memory)?;
    let code = status.code();
    println!(rt;
        "{name} {code} {}",
        compare_texts(sink.bytes(), &stored.text)
    )
}

/// Runs the same job over a bench that is not observable, and prints the name, the exit status, and whether the text is the
/// same.
///
/// An error where a file cannot be read, standard output cannot be written, or memory is refused.
pub fn run_silent(rt: &HostRuntime, name: &str) -> io::Result<()> {
    let Stored { job, words, text } = read_stored(rt, name)?;
    let (status, sink) = answer_over_silent(rt.alloc(), &words, &job).map_err(no_memory)?;
    let code = status.code();
    println!(rt;
        "{name} {code} over a silent bench {}",
        compare_texts(sink.bytes(), &text)
    )
}

// What is written before the first packet of a trace.
fn report_of(text: &[u8]) -> &[u8] {
    for end in 1..text.len() {
        if text[end - 1] == b'\n' && text[end] == b'>' {
            return &text[..end];
        }
    }
    text
}

/// Runs the same job by the access that sends each register access by itself. It prints the name, the exit status, and `as expected` where
/// what was written is the content of `NAME.json.single`, else `differs`. Then it prints whether its report is the one that is expected of
/// the access that packs.
///
/// An error where a file cannot be read, standard output cannot be written, or memory is refused.
pub fn run_single(rt: &HostRuntime, name: &str) -> io::Result<()> {
    let Stored { job, words, text } = read_stored(rt, name)?;
    let expected = fs::read(rt, format!(in rt.alloc(); "{name}.json.single")?)?;
    let (status, sink) = answer_by_single(rt.alloc(), &words, &job).map_err(no_memory)?;
    let written = sink.bytes();
    let code = status.code();
    let is = compare_texts(written, &expected);
    let report = if report_of(written) == report_of(text.as_slice()) {
        "the same report"
    } else {
        "a report of its own"
    };
    println!(rt; "{name} {code} by Single {is}, {report}")
}

/// Runs the same job once for each call of its source, its sink and its bench, and lets that call fail. Prints the
/// name, and how many calls of each there are; or `differs` where a run does not end with the status of the object
/// that failed, or writes what it may not write then.
///
/// An error where a file cannot be read, standard output cannot be written, or memory is refused.
pub fn run_failing(rt: &HostRuntime, name: &str) -> io::Result<()> {
    let Stored { job, words, text } = read_stored(rt, name)?;
    print!(rt; "{name}")?;
    for (object, called) in [
        (Object::Source, "source"),
        (Object::Sink, "sink"),
        (Object::Bench, "bench"),
    ] {
        match failing_calls(rt.alloc(), &words, &job, &text, object).map_err(no_memory)? {
            Some(calls) => print!(rt; " {called} {calls}")?,
            None => print!(rt; " {called} differs")?,
        }
    }
    println!(rt)
}

/// Audits the trace that `NAME.json.stdout` shows, under the key `trace` of `NAME.json`, and prints the name, the exit status, and
/// `as expected` where the trace is accepted and the target is the one that the text shows, else `differs`.
///
/// An error where a file cannot be read, the job does not end with a brace, standard output cannot be written, or memory is
/// refused.
pub fn run_audit(rt: &HostRuntime, name: &str) -> io::Result<()> {
    let job = fs::read_to_string(rt, format!(in rt.alloc(); "{name}.json")?)?;
    let text = fs::read_to_string(rt, format!(in rt.alloc(); "{name}.json.stdout")?)?;
    let Some(job) = with_trace(rt.alloc(), job.as_str(), text.as_str())? else {
        return Err(io::Error::from(ErrorKind::InvalidData));
    };
    let expected = accepted_text(rt.alloc(), text.as_str())?;
    let words = words_of(rt.alloc(), "audit").map_err(no_memory)?;
    let (status, sink) = answer(rt.alloc(), &words, job.as_bytes()).map_err(no_memory)?;
    let code = status.code();
    println!(rt;
        "{name} {code} audited {}",
        compare_texts(sink.bytes(), expected.as_bytes())
    )
}
