//! What is written of checks and of runs that are refused.
use crate::options::{Options, refuse_memory, selection_of};
use check_lines::{write_check, write_no_sequence, write_refusal, write_too_long, write_usage};
use dap_base::MemorySink;
use job_check::{CheckRefusal, RunRefusal, ValidSet, valid_run, valid_set};
use seq_check::Checked;
use sequence_resolve::Selection;
use std::alloc::{AllocError, Global};
use text_lines::TextError;

// What was put into a sink, and a line of the error that ended it.
fn show_written(
    alloc: Global,
    sink: &MemorySink,
    end: Result<(), TextError>,
) -> Result<Vec<u8>, AllocError> {
    let mut text = Vec::from_slice(alloc, sink.bytes())?;
    if let Err(error) = end {
        text.extend_from_slice(format!(in alloc; "{error:?}\n")?.as_bytes())?;
    }
    Ok(text)
}

fn write_checked(
    alloc: Global,
    job: &[u8],
    selection: &Selection,
    sink: &mut MemorySink,
) -> Result<(), TextError> {
    match valid_set(alloc, job, selection) {
        Ok(valid) => write_check(alloc, &valid.set, sink),
        Err(CheckRefusal::Refused(refusal)) => write_refusal(alloc, &refusal, sink),
        Err(CheckRefusal::OutOfMemory) => Err(TextError::OutOfMemory),
    }
}

/// The text of the set of a job, or the line of its refusal.
pub fn check_job(alloc: Global, job: &[u8], options: &Options<'_>) -> Result<Vec<u8>, AllocError> {
    let mut sink = MemorySink::new(alloc, &[options.put]).map_err(refuse_memory)?;
    let end = write_checked(alloc, job, &options.selection, &mut sink);
    show_written(alloc, &sink, end)
}

// Why the sequence does not run, where it does not.
fn run_refusal(alloc: Global, job: &[u8], options: &Options<'_>) -> Option<RunRefusal> {
    match valid_run(
        alloc,
        job,
        options.own,
        &options.selection,
        options.sequence,
    ) {
        Ok(_) => None,
        Err(refusal) => Some(refusal),
    }
}

fn write_run_refusal(
    alloc: Global,
    refusal: &RunRefusal,
    sink: &mut MemorySink,
) -> Result<(), TextError> {
    match refusal {
        RunRefusal::Refused(refusal) => write_refusal(alloc, refusal, sink),
        RunRefusal::NoSequence => write_no_sequence(sink),
        RunRefusal::OutOfMemory => Err(TextError::OutOfMemory),
    }
}

fn refusal_line(alloc: Global, refusal: &RunRefusal, put: u32) -> Result<Vec<u8>, AllocError> {
    let mut sink = MemorySink::new(alloc, &[put]).map_err(refuse_memory)?;
    let end = write_run_refusal(alloc, refusal, &mut sink);
    show_written(alloc, &sink, end)
}

/// `runs` where the sequence can run, or the line of the refusal.
pub fn run(alloc: Global, job: &[u8], options: &Options<'_>) -> Result<Vec<u8>, AllocError> {
    match run_refusal(alloc, job, options) {
        Some(refusal) => refusal_line(alloc, &refusal, options.put),
        None => Vec::from_slice(alloc, b"runs\n"),
    }
}

// Whether a set has the name, and how many steps.
fn name_line(alloc: Global, trees: &Checked, name: &str) -> Result<String, AllocError> {
    let has = trees.has(name);
    let steps = trees.steps(name).map_or(0, |steps| steps.len());
    format!(in alloc; "{name} {has} {steps}\n")
}

fn tree_lines(alloc: Global, valid: &ValidSet, names: &str) -> Result<String, AllocError> {
    let sequences = valid.set.entries.len();
    let debugvars = valid.trees.debugvars().len();
    let mut text = format!(in alloc; "sequences {sequences} debugvars {debugvars}\n")?;
    for name in names.split(' ') {
        text.push_str(&name_line(alloc, &valid.trees, name)?)?;
    }
    Ok(text)
}

/// How many sequences and debug variables a valid set has, and of each of these names, with spaces between them, how many
/// steps.
pub fn trees(alloc: Global, job: &[u8], names: &str) -> Result<Vec<u8>, AllocError> {
    let selection = selection_of(alloc, "")?;
    match valid_set(alloc, job, &selection) {
        Ok(valid) => Ok(tree_lines(alloc, &valid, names)?.into_bytes()),
        Err(_) => Vec::from_slice(alloc, b"no set\n"),
    }
}

fn write_line(name: &[u8], sink: &mut MemorySink) -> Result<(), TextError> {
    match name {
        b"usage" => write_usage(sink),
        b"too long" => write_too_long(sink),
        _ => write_no_sequence(sink),
    }
}

/// The line that the input names, which needs no job.
pub fn line(alloc: Global, name: &[u8], options: &Options<'_>) -> Result<Vec<u8>, AllocError> {
    let mut sink = MemorySink::new(alloc, &[options.put]).map_err(refuse_memory)?;
    let end = write_line(name, &mut sink);
    show_written(alloc, &sink, end)
}
