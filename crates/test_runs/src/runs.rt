//! Runs of small sets over an access whose results are given.
use crate::ends::ending_text;
use crate::given::Given;
use crate::reading::{no_memory, number_in};
use crate::sets::{block, check_set, settings, steps_of};
use crate::shown::with_calls_and_lines;
use access_calls::{Ended, Scripted};
use control_flow::run;
use dap_base::{MemorySink, NameText, OutOfMemory};
use device_tree::{Step, Steps};
use seq_check::{CheckFault, Checked};
use std::alloc::{AllocError, Global};

// What is run: the debug variables, the steps of `Main`, the block of `Sub`, and what the access and the sink do.
#[derive(Drop)]
struct Job<'a> {
    debugvars: &'a str,
    main: Steps,
    sub: &'a str,
    given: Given,
}

// `if COND then CODE`.
fn if_step(alloc: Global, part: &str) -> Result<Step, OutOfMemory> {
    let (cond, code) = part.split_once(" then ").unwrap_or((part, ""));
    Ok(Step::Control {
        cond: Some(NameText::new(alloc, cond)?),
        repeat: None,
        timeout: None,
        steps: steps_of(alloc, code)?,
    })
}

// `while COND for TIMEOUT do CODE`, or without the code.
fn while_step(alloc: Global, part: &str) -> Result<Step, OutOfMemory> {
    let (cond, rest) = part.split_once(" for ").unwrap_or((part, ""));
    let (timeout, code) = rest.split_once(" do ").unwrap_or((rest, ""));
    Ok(Step::Control {
        cond: None,
        repeat: Some(NameText::new(alloc, cond)?),
        timeout: Some(number_in(timeout)),
        steps: steps_of(alloc, code)?,
    })
}

// Reads one part of an input: its kind, and what follows.
fn read_part<'a>(alloc: Global, job: &mut Job<'a>, part: &'a str) -> Result<(), AllocError> {
    let (kind, rest) = part.split_once(' ').unwrap_or((part, ""));
    let step = match kind {
        "block" => block(alloc, rest),
        "if" => if_step(alloc, rest),
        "while" => while_step(alloc, rest),
        "vars" => {
            job.debugvars = rest;
            return Ok(());
        }
        "sub" => {
            job.sub = rest;
            return Ok(());
        }
        _ => return job.given.read(kind, rest),
    };
    let step = step.map_err(no_memory)?;
    job.main.push(step).map_err(no_memory)
}

fn job_of(alloc: Global, input: &str) -> Result<Job<'_>, AllocError> {
    let mut job = Job {
        debugvars: "",
        main: Steps::new(alloc),
        sub: "",
        given: Given::new(alloc),
    };
    for part in input.split(" | ") {
        read_part(alloc, &mut job, part)?;
    }
    Ok(job)
}

// The value of `__Result`, where it is answered.
fn result_text(alloc: Global, ended: &Ended) -> Result<String, AllocError> {
    for variable in ended.variables.as_slice() {
        if variable.name.as_str() == "__Result" {
            return format!(in alloc; "{}", variable.value);
        }
    }
    String::from_str(alloc, "none")
}

// How a run ended: its units, those that were skipped, its need points, and the value of `__Result`.
fn ended_text(alloc: Global, ended: &Ended, needs: u64) -> Result<String, AllocError> {
    let ending = ending_text(alloc, ended.ending)?;
    let result = result_text(alloc, ended)?;
    let units = ended.units;
    let skipped = ended.skipped;
    format!(in alloc;
        "{ending}, units {units}, skipped {skipped}, needs {needs}, __Result {result}"
    )
}

// Runs `Main` of a checked set.
fn shown_run(alloc: Global, set: &Checked, given: Given) -> Result<String, AllocError> {
    let settings = settings(alloc).map_err(no_memory)?;
    let mut access = Scripted::new(alloc, given.results, given.fails_at);
    let mut sink = MemorySink::new(alloc, given.puts.as_slice()).map_err(no_memory)?;
    let ended = run(alloc, set, "Main", &settings, &mut access, &mut sink);
    let text = ended_text(alloc, &ended, access.needs)?;
    with_calls_and_lines(alloc, text, access.calls.as_slice(), sink.bytes())
}

// The checked set of a job. The block of `Sub` is there where it is empty too.
fn set_of(alloc: Global, debugvars: &str, main: Steps, sub: &str) -> Result<Checked, CheckFault> {
    let mut steps = Steps::new(alloc);
    steps.push(block(alloc, sub)?)?;
    check_set(alloc, debugvars, main, steps)
}

/// How a run ends, and what is asked and written. An input has parts between ` | `: steps of `Main`, `vars` with the debug variables, `sub`
/// with the block of `Sub`, and what is given.
pub(crate) fn run_text(alloc: Global, input: &str) -> Result<String, AllocError> {
    let job = job_of(alloc, input)?;
    match set_of(alloc, job.debugvars, job.main, job.sub) {
        Ok(set) => shown_run(alloc, &set, job.given),
        Err(CheckFault::Fault(_, _)) => String::from_str(alloc, "the set is not valid"),
        Err(CheckFault::OutOfMemory) => Err(AllocError),
    }
}
