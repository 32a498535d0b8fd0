//! The report of a run and the trace after it, of runs whose endings the rows name.
ghost use Rattle.probe_core.specs.Ranges.{IsBenchJob};
ghost use Rattle.report_lines.specs.Shown.{IsShownJob};

use crate::options::refuse_memory;
use access_calls::{Ended, Ending, Report, StopCause};
use dap_base::{MemorySink, NameText, OutOfMemory, number};
use job_text::{Job, job_of};
use probe_core::{Bench, BenchJob, FaultyBench};
use report_lines::{TextEnd, report_text, trace_text};
use std::alloc::{AllocError, Global};
use target_machine::{Call, HaltCause, ProbeCall, Unit, Variable, Variables};

// The numbers of a row; 0 where it has none of the name.
#[derive(Clone, Copy)]
struct Numbers {
    // How many units were skipped.
    skipped: u32,
    // What a failed bench has issued and confirmed.
    issued: u32,
    confirmed: u32,
    // The access port and the address of an access.
    ap: u8,
    at: u64,
    // The put of the sink and the call of the bench that fail.
    put: u32,
    call: u32,
}

// The number of the word `NAME=NUMBER`.
fn number_named(words: &str, name: &str) -> u64 {
    for word in words.split(' ') {
        if let Some((key, text)) = word.split_once('=') {
            if key == name {
                return number(text).unwrap_or(0);
            }
        }
    }
    0
}

// The same of a number of 32 bits.
fn small_named(words: &str, name: &str) -> u32 {
    u32::try_from(number_named(words, name)).unwrap_or(0)
}

fn numbers_of(words: &str) -> Numbers {
    Numbers {
        skipped: small_named(words, "skipped"),
        issued: small_named(words, "issued"),
        confirmed: small_named(words, "confirmed"),
        ap: u8::try_from(number_named(words, "ap")).unwrap_or(0),
        at: number_named(words, "at"),
        put: small_named(words, "put"),
        call: small_named(words, "call"),
    }
}

fn memory(size: u8, read: bool, numbers: Numbers) -> Unit {
    Unit::Memory {
        size,
        read,
        ap: numbers.ap,
        address: numbers.at,
        value: 9,
    }
}

// The call of a name.
fn call_of(name: &str, numbers: Numbers) -> Call {
    let addr = u8::try_from(numbers.at).unwrap_or(0);
    Call::Access(match name {
        "read8" => memory(1, true, numbers),
        "write16" => memory(2, false, numbers),
        "write32" => memory(4, false, numbers),
        "read32" => memory(4, true, numbers),
        "readap" => Unit::Ap {
            read: true,
            ap: numbers.ap,
            addr,
            value: 0,
        },
        "writedp" => Unit::Dp {
            read: false,
            addr,
            value: 1,
        },
        "poll" => Unit::Poll {
            mask: 1,
            value: 1,
            turns: 5,
        },
        _ => return Call::Probe(ProbeCall::Delay(5)),
    })
}

// A stop at the second unit.
fn stop(cause: StopCause, what: Call) -> Ending {
    Ending::Cut(Report {
        cause,
        unit: 2,
        what,
        attempted: 1,
        accesses: 7,
        confirmed: 6,
    })
}

// The halt of a name.
fn halt_of(name: &str) -> HaltCause {
    match name {
        "Misaligned" => HaltCause::Misaligned,
        "DivideByZero" => HaltCause::DivideByZero,
        "Unsupported" => HaltCause::Unsupported,
        "AddressTooLarge" => HaltCause::AddressTooLarge,
        "ArgumentOutOfRange" => HaltCause::ArgumentOutOfRange,
        "AccessLimit" => HaltCause::AccessLimit,
        "MessageLimit" => HaltCause::MessageLimit,
        _ => HaltCause::StepLimit,
    }
}

// The ending that words begin with.
fn ending_of(words: &str, numbers: Numbers) -> Ending {
    let (kind, rest) = words.split_once(' ').unwrap_or((words, ""));
    let (what, _) = rest.split_once(' ').unwrap_or((rest, ""));
    match kind {
        "done" => Ending::Done,
        "halted" => Ending::Halted(halt_of(what)),
        "faulted" => stop(StopCause::Faulted, call_of(what, numbers)),
        "noanswer" => stop(StopCause::NoAnswer, call_of(what, numbers)),
        "benchfault" => Ending::BenchFault {
            issued: numbers.issued,
            confirmed: numbers.confirmed,
        },
        "replybad" => Ending::ReplyBad,
        "writefault" => Ending::WriteFault,
        _ => Ending::OutOfMemory,
    }
}

// Two variables.
fn variables(alloc: Global) -> Result<Variables, OutOfMemory> {
    let mut variables = Variables::new(alloc);
    for (name, value) in [("__dp", 0), ("key", 0xC0FFEE)] {
        let name = NameText::new(alloc, name)?;
        variables.push(Variable { name, value })?;
    }
    Ok(variables)
}

// The report of a run, and the trace after it. The packet and the reply that ended it are 0500 and ff.
fn texts<B: Bench>(
    alloc: Global,
    job: &Job,
    ended: &Ended,
    bench: &mut B,
    sink: &mut MemorySink,
) -> Result<(), TextEnd>
    requires { IsShownJob job.now }
{
    report_text(alloc, ended, &[0x05, 0x00], &[0xff], job, bench, sink)?;
    trace_text(alloc, bench, sink)
}

/// A run of three units with the ending that words begin with.
pub fn ended_of(alloc: Global, words: &str) -> Result<Ended, AllocError> {
    let numbers = numbers_of(words);
    Ok(Ended {
        ending: ending_of(words, numbers),
        units: 3,
        skipped: numbers.skipped,
        variables: variables(alloc).map_err(refuse_memory)?,
    })
}

// A bench with the fresh target of a job, whose call of this number fails.
fn bench_of(alloc: Global, job: &BenchJob, call: u32) -> Result<FaultyBench, AllocError>
    requires { IsBenchJob job.now }
{
    let mut bench = FaultyBench::new(alloc, &[call]).map_err(refuse_memory)?;
    match bench.load(alloc, job) {
        Ok(()) => Ok(bench),
        Err(_) => Err(AllocError),
    }
}

// What was put into a sink, and a line of the error that ended it.
fn show_written(
    alloc: Global,
    sink: &MemorySink,
    end: Result<(), TextEnd>,
) -> Result<Vec<u8>, AllocError> {
    let mut text = Vec::from_slice(alloc, sink.bytes())?;
    if let Err(error) = end {
        text.extend_from_slice(format!(in alloc; "{error:?}\n")?.as_bytes())?;
    }
    Ok(text)
}

/// What is written of a run of a job on a bench. The put of this number fails.
pub fn text_of<B: Bench>(
    alloc: Global,
    job: &Job,
    ended: &Ended,
    bench: &mut B,
    put: u32,
) -> Result<Vec<u8>, AllocError>
    requires { IsShownJob job.now }
{
    let mut sink = MemorySink::new(alloc, &[put]).map_err(refuse_memory)?;
    let end = texts(alloc, job, ended, bench, &mut sink);
    show_written(alloc, &sink, end)
}

// The same, where words name the ending and the numbers.
fn report_of(alloc: Global, job: &Job, words: &str) -> Result<Vec<u8>, AllocError>
    requires { IsShownJob job.now }
{
    let numbers = numbers_of(words);
    let ended = ended_of(alloc, words)?;
    let mut bench = bench_of(alloc, &job.bench, numbers.call)?;
    text_of(alloc, job, &ended, &mut bench, numbers.put)
}

/// What is written of a run of three units, where the bench has the fresh target of the job; and a line of the error that
/// ended the text. The input is the job, a line feed, and words: the ending, what it was at, and numbers.
pub fn report_run(alloc: Global, input: &[u8]) -> Result<Vec<u8>, AllocError> {
    let Ok(input) = str::from_utf8(input) else {
        return Err(AllocError);
    };
    let (text, words) = input.split_once('\n').unwrap_or((input, ""));
    match job_of(alloc, text.as_bytes()) {
        Ok(job) => report_of(alloc, &job, words),
        Err(_) => Err(AllocError),
    }
}
