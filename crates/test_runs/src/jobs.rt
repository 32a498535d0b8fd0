//! Whole jobs by the direct runner, and what each comes to.
ghost use Rattle.job_text.specs.Ranges.{AreSettings};
ghost use Rattle.probe_core.specs.Ranges.{IsBenchJob};

use crate::outcomes::{show_end, show_memory, show_text};
use dap_base::MemorySink;
use job_text::{Job, job_of};
use seq_check::{Checked, check};
use sequence_meaning::{Recorded, run_recorded};
use sequence_resolve::effective;
use std::alloc::Global;
use std::io::ErrorKind;
use std::{fs, io};
use target_machine::Target;

// How a job is run, by the word after its name: a variant of the device, or the number of a put that fails.
#[derive(Clone, Copy)]
struct Choice<'a> {
    variant: Option<&'a str>,
    // 0 where none fails.
    put: u32,
}

fn choice_of<'a>(word: &'a str) -> Choice<'a> {
    match word.parse::<u32>() {
        Ok(put) => Choice { variant: None, put },
        Err(_) if word.is_empty() => Choice {
            variant: None,
            put: 0,
        },
        Err(_) => Choice {
            variant: Some(word),
            put: 0,
        },
    }
}

fn out_of_memory() -> io::Error {
    io::Error::from(ErrorKind::OutOfMemory)
}

// The checked set of device D1, or of one of its variants; `None` where it is refused.
fn set_of(alloc: Global, job: &Job, variant: Option<&str>) -> Option<Checked> {
    let set = effective(alloc, &job.pack, "D1", variant, None).ok()?;
    check(alloc, &set).ok()
}

// The run of `Main` over a target and a sink; `None` where memory is refused.
fn record_run(
    alloc: Global,
    job: &Job,
    checked: &Checked,
    target: &mut Target,
    sink: &mut MemorySink,
) -> Option<Recorded>
    requires settings { AreSettings job.now.settings }
{
    run_recorded(alloc, checked, "Main", &job.settings, target, sink).ok()
}

// What the run made and how it ended, and then the watched words.
fn show_run(
    rt: &HostRuntime,
    job: &Job,
    run: &Recorded,
    sink: &MemorySink,
    target: &Target,
) -> io::Result<()> {
    show_text(rt, sink.bytes())?;
    show_end(rt, run)?;
    for item in job.watch.as_slice() {
        show_memory(rt, target, item.address, item.words)?;
    }
    Ok(())
}

// Runs `Main` over this target and sink.
fn run_over(
    rt: &HostRuntime,
    job: &Job,
    checked: &Checked,
    target: &mut Target,
    sink: &mut MemorySink,
) -> io::Result<()>
    requires settings { AreSettings job.now.settings }
{
    match record_run(rt.alloc(), job, checked, target, sink) {
        Some(run) => show_run(rt, job, &run, sink, target),
        None => Err(out_of_memory()),
    }
}

// Runs `Main` over the target of the job.
fn run_into(rt: &HostRuntime, job: &Job, checked: &Checked, sink: &mut MemorySink) -> io::Result<()>
    requires settings { AreSettings job.now.settings }
    requires bench { IsBenchJob job.now.bench }
{
    match Target::new(rt.alloc(), &job.bench.target) {
        Ok(mut target) => run_over(rt, job, checked, &mut target, sink),
        Err(_) => Err(out_of_memory()),
    }
}

// Runs `Main` of a checked set into a sink in memory.
fn run_checked(rt: &HostRuntime, job: &Job, checked: &Checked, put: u32) -> io::Result<()>
    requires settings { AreSettings job.now.settings }
    requires bench { IsBenchJob job.now.bench }
{
    match MemorySink::new(rt.alloc(), &[put]) {
        Ok(mut sink) => run_into(rt, job, checked, &mut sink),
        Err(_) => Err(out_of_memory()),
    }
}

fn run_job(rt: &HostRuntime, job: &Job, choice: Choice<'_>) -> io::Result<()>
    requires settings { AreSettings job.now.settings }
    requires bench { IsBenchJob job.now.bench }
{
    match set_of(rt.alloc(), job, choice.variant) {
        Some(checked) => run_checked(rt, job, &checked, choice.put),
        None => println!(rt; "refused check"),
    }
}

fn run_bytes(rt: &HostRuntime, bytes: &[u8], choice: Choice<'_>) -> io::Result<()> {
    match job_of(rt.alloc(), bytes) {
        Ok(job) => run_job(rt, &job, choice),
        Err(_) => println!(rt; "refused job"),
    }
}

/// Runs `Main` of the job of the file `NAME.json`, where the line is the name, or the name and then a variant or the number of a
/// failing put. Prints the line, what the run wrote and how it ended, and the watched words.
///
/// An error where the file cannot be read, standard output cannot be written or memory is refused.
pub fn run_named(rt: &HostRuntime, line: &str) -> io::Result<()> {
    let (name, word) = line.split_once(' ').unwrap_or((line, ""));
    println!(rt; "-- {line}")?;
    let bytes = fs::read(rt, format!(in rt.alloc(); "{name}.json")?)?;
    run_bytes(rt, &bytes, choice_of(word))
}
