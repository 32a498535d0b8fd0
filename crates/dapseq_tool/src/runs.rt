//! A run that is asked for.
ghost use Rattle.std.specs.Prelude.{◌≡◌, Some};
ghost use Rattle.probe_core.specs.Bench.{fresh, seen_bench};
ghost use Rattle.dapseq_tool.specs.Answers.{close_status, run_status, status_after, text_status};
ghost use Rattle.dapseq_tool.specs.Asked.{IsSoundRun};
ghost use Rattle.dapseq_tool.specs.Frame.{IsLoadedFor, KeepsRun};
ghost use Rattle.dapseq_tool.specs.Headline.{HasRunAndReported, RunEnd};
ghost use Rattle.dapseq_tool.specs.RunEnds.{AskedRun};
ghost use Rattle.job_runs.specs.Runs.{access_kind};
ghost use Rattle.dapseq_tool.specs.Purpose.{sequel_by, shows_packets};
ghost use Rattle.task_runs.specs.Tasks.{sequel_of};

use crate::asking::{Purpose, Run};
use crate::call::Over;
use crate::status::Status;
use access_calls::{Ending, OverBench};
use dap_base::Sink;
use job_runs::{Ran, run_whole, write_whole};
use probe_core::{Bench, LoadError};
use report_lines::TextEnd;
use sequels::Close;
use std::alloc::Global;
use task_runs::Followed;

// Whether the packets are shown after the report.
fn shows_packets(purpose: Purpose) -> bool
    ensures { result ≡ shows_packets purpose }
{
    matches!(purpose, Purpose::Trace)
}

// What follows the sequence.
fn followed_of(run: &Run) -> Followed<'_>
    ensures { sequel_of result ≡ sequel_by run.now.purpose run.now.valid.image }
{
    match (run.purpose, &run.valid.image) {
        (Purpose::Load, Some(own)) => Followed::Load {
            ap: own.ap,
            image: &own.image,
        },
        (Purpose::Scan { ap }, _) => Followed::Scan { ap },
        _ => Followed::Nothing,
    }
}

// The status after a run that is done.
fn close_status(close: Close) -> Status
    ensures { result ≡ close_status close }
{
    match close {
        Close::Nothing | Close::Loaded { .. } | Close::Scanned => Status::Done,
        Close::Differs { .. } | Close::Full => Status::Stopped,
    }
}

// The status after a run that ended so.
fn run_status(ending: Ending, close: Close) -> Status
    ensures { result ≡ run_status ending close }
{
    match ending {
        Ending::Done => close_status(close),
        Ending::Halted(_) | Ending::Cut(_) => Status::Stopped,
        Ending::BenchFault { .. } => Status::BenchFault,
        Ending::ReplyBad => Status::ReplyBad,
        Ending::WriteFault => Status::WriteFault,
        Ending::OutOfMemory => Status::OutOfMemory,
    }
}

// The status where a text was not written whole.
fn text_status(end: TextEnd) -> Status
    ensures { result ≡ text_status end }
{
    match end {
        TextEnd::BenchFault => Status::BenchFault,
        TextEnd::WriteFault => Status::WriteFault,
        TextEnd::OutOfMemory => Status::OutOfMemory,
    }
}

// The status after a run that ended so, by how its text was written.
fn status_after(written: Result<(), TextEnd>, ending: Ending, close: Close) -> Status
    ensures { result ≡ status_after written ending close }
{
    match written {
        Ok(()) => run_status(ending, close),
        Err(end) => text_status(end),
    }
}

// Runs a sequence over a bench that was loaded, and writes its report.
fn run_loaded<B: Bench, K: Sink, A: OverBench<B>>(
    alloc: Global,
    run: &Run,
    bench: B,
    sink: &mut K,
) -> Over<B>
    requires { IsLoadedFor run.now (B.reported bench) }
    ensures run { (r : RunEnd) × HasRunAndReported (access_kind A.Access.journal A.Access.cost A.Access.is_sparing) run.now
        (B.state bench ≡ Some (fresh run.now.valid.job.bench)) (B.reported bench) (K.written sink.old) r
        (record { written = K.written sink.new; end = result.status; bench = seen_bench B.reported B.state result.bench }) }
    ensures keeps { KeepsRun (B.identity result.bench ≡ B.identity bench) (K.faults sink.old) (K.faults sink.new)
        (B.reported bench).faults (B.reported result.bench).faults result.status }
{
    let sequence = run.sequence.as_str();
    let followed = followed_of(run);
    let mut ran = run_whole::<B, K, A>(alloc, &run.valid, sequence, &followed, bench, sink);
    let is_traced = shows_packets(run.purpose);
    let written = write_whole(alloc, &run.valid.job, is_traced, &mut ran, sink);
    let Ran {
        ended,
        close,
        bench,
        ..
    } = ran;
    Over {
        status: status_after(written, ended.ending, close),
        bench,
    }
}

/// Loads the bench of a job, runs a sequence over it, and writes its report.
pub fn run_asked<B: Bench, K: Sink, A: OverBench<B>>(
    alloc: Global,
    run: &Run,
    bench: B,
    sink: &mut K,
) -> Over<B>
    requires { IsSoundRun run.now }
    ensures run { AskedRun (access_kind A.Access.journal A.Access.cost A.Access.is_sparing) run.now (seen_bench B.reported B.state bench) (K.written sink.old)
        (record { written = K.written sink.new; end = result.status; bench = seen_bench B.reported B.state result.bench }) }
    ensures keeps { KeepsRun (B.identity result.bench ≡ B.identity bench) (K.faults sink.old) (K.faults sink.new)
        (B.reported bench).faults (B.reported result.bench).faults result.status }
{
    let mut bench = bench;
    match bench.load(alloc, &run.valid.job.bench) {
        Ok(()) => run_loaded::<B, K, A>(alloc, run, bench, sink),
        Err(LoadError::Failed) => Over {
            status: Status::BenchFault,
            bench,
        },
        Err(LoadError::OutOfMemory) => Over {
            status: Status::OutOfMemory,
            bench,
        },
    }
}
