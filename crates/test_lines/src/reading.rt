//! What is read of jobs: their first faults, and what a job has.
use device_tree::{JobFault, Path, PathStep};
use job_text::{Job, JobRefusal, job_of};
use std::alloc::{AllocError, Global};
use target_machine::{ApJob, TargetJob};

// Adds the steps of a path, each after a slash.
fn push_path(alloc: Global, text: &mut String, path: &Path) -> Result<(), AllocError> {
    for step in path.as_slice() {
        text.push_str("/")?;
        match step {
            PathStep::Key(name) => text.push_str(name.as_str())?,
            PathStep::Index(index) => text.push_str(&format!(in alloc; "{index}")?)?,
        }
    }
    Ok(())
}

// The kind of a fault and its path.
fn show_fault(alloc: Global, fault: &JobFault) -> Result<Vec<u8>, AllocError> {
    let Some(path) = fault.path() else {
        return Err(AllocError);
    };
    let mut text = String::from_str(alloc, fault.name())?;
    text.push_str(" #")?;
    push_path(alloc, &mut text, path)?;
    text.push_str("\n")?;
    Ok(text.into_bytes())
}

/// What is said of the bytes: `ok`, `BadJson`, or the kind of the first fault and its path.
pub fn read(alloc: Global, bytes: &[u8]) -> Result<Vec<u8>, AllocError> {
    match job_of(alloc, bytes) {
        Ok(_) => Vec::from_slice(alloc, b"ok\n"),
        Err(JobRefusal::BadJson) => Vec::from_slice(alloc, b"BadJson\n"),
        Err(JobRefusal::OutOfMemory) => Err(AllocError),
        Err(JobRefusal::Fault(fault)) => show_fault(alloc, &fault),
    }
}

// How many variables a job starts with and how many items it watches, and its settings.
fn settings_line(alloc: Global, job: &Job) -> Result<String, AllocError> {
    let settings = &job.settings;
    let (turn_us, retry, idle) = (settings.turn_us, settings.retry, settings.idle);
    let (start, watch) = (settings.start.len(), job.watch.len());
    format!(in alloc; "turn_us {turn_us} retry {retry} idle {idle} start {start} watch {watch}\n")
}

// The debug port of a target.
fn target_line(alloc: Global, target: &TargetJob) -> Result<String, AllocError> {
    let (dpidr, pins) = (target.dpidr, target.pins);
    let (powered, power_reads, carry) = (target.powered, target.power_reads, target.carry);
    format!(in alloc;
        "dpidr {dpidr:#x} powered {powered} power_reads {power_reads} pins {pins:#x} carry {carry}\n"
    )
}

fn port_line(alloc: Global, port: &ApJob) -> Result<String, AllocError> {
    let ApJob {
        ap,
        idr,
        base,
        csw,
        la,
    } = *port;
    format!(in alloc; "ap {ap} idr {idr:#x} base {base:#x} csw {csw:#x} la {la}\n")
}

// The debug port of a target, and its access ports.
fn target_lines(alloc: Global, target: &TargetJob) -> Result<String, AllocError> {
    let mut text = target_line(alloc, target)?;
    for port in target.aps.as_slice() {
        text.push_str(&port_line(alloc, port)?)?;
    }
    Ok(text)
}

fn job_lines(alloc: Global, job: &Job) -> Result<String, AllocError> {
    let mut text = settings_line(alloc, job)?;
    text.push_str(&target_lines(alloc, &job.bench.target)?)?;
    Ok(text)
}

/// The settings of a job, how many variables it starts with and how many items it watches, its debug port, and its access
/// ports; `none` of bytes that are no job.
pub fn values(alloc: Global, bytes: &[u8]) -> Result<Vec<u8>, AllocError> {
    match job_of(alloc, bytes) {
        Ok(job) => Ok(job_lines(alloc, &job)?.into_bytes()),
        Err(_) => Vec::from_slice(alloc, b"none\n"),
    }
}
