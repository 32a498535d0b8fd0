//! Calls with stored jobs, and what is stored beside them.

use crate::failing::{Object, failing_calls};
use crate::program::{Program, answer, words_in};
use dap_base::{OutOfMemory, Words};
use std::io::ErrorKind;
use std::{fs, io};

// A stored job: its bytes, the words of the call, and the text that is expected.
#[derive(Drop)]
struct Stored {
    job: Vec<u8>,
    words: Words,
    text: Vec<u8>,
}

fn no_memory(_: OutOfMemory) -> io::Error {
    io::Error::from(ErrorKind::OutOfMemory)
}

fn first_line(text: &str) -> &str {
    match text.split_once('\n') {
        Some((line, _)) => line,
        None => text,
    }
}

fn other_lines(text: &str) -> &str {
    match text.split_once('\n') {
        Some((_, lines)) => lines,
        None => "",
    }
}

// Reads `NAME.args` and `NAME.stdout`; the first line of `NAME.args` names the job, and the others are the words.
fn read_stored(rt: &HostRuntime, name: &str) -> io::Result<Stored> {
    let args = fs::read_to_string(rt, format!(in rt.alloc(); "{name}.args")?)?;
    let text = fs::read(rt, format!(in rt.alloc(); "{name}.stdout")?)?;
    let job = fs::read(rt, format!(in rt.alloc(); "{}", first_line(args.as_str()))?)?;
    let words = words_in(rt.alloc(), other_lines(args.as_str())).map_err(no_memory)?;
    Ok(Stored { job, words, text })
}

/// Makes the call `NAME`, and prints its name, its exit status, and `as expected` where what was written is the content of
/// `NAME.stdout`; else what was written.
///
/// An error where a file cannot be read, standard output cannot be written, or memory is refused.
pub fn run_case<P: Program>(rt: &HostRuntime, name: &str) -> io::Result<()> {
    let Stored { job, words, text } = read_stored(rt, name)?;
    let (code, sink) = answer::<P>(rt.alloc(), &words, &job, &[], &[]).map_err(no_memory)?;
    if sink.bytes() == text.as_slice() {
        return println!(rt; "{name} {code} as expected");
    }
    println!(rt; "{name} {code} differs")?;
    match str::from_utf8(sink.bytes()) {
        Ok(written) => print!(rt; "{written}"),
        Err(_) => Ok(()),
    }
}

/// Makes the same call once for each call of its source and of its sink, and lets that call fail. Prints the name, and how many
/// calls of each there are; or `differs` where a call does not end with the status of the object that failed, or writes what it may
/// not write then.
///
/// An error where a file cannot be read, standard output cannot be written, or memory is refused.
pub fn run_failing<P: Program>(rt: &HostRuntime, name: &str) -> io::Result<()> {
    let Stored { job, words, text } = read_stored(rt, name)?;
    print!(rt; "{name}")?;
    for (object, called) in [(Object::Source, "source"), (Object::Sink, "sink")] {
        match failing_calls::<P>(rt.alloc(), &words, &job, &text, object).map_err(no_memory)? {
            Some(calls) => print!(rt; " {called} {calls}")?,
            None => print!(rt; " {called} differs")?,
        }
    }
    println!(rt)
}
