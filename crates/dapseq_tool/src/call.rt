//! The whole call.
ghost use Rattle.std.specs.Prelude.{◌≡◌, ◌≢◌, ◌⊎◌, IfOk};
ghost use Rattle.dap_base.specs.Causes.{IsQuiet, Rose};
ghost use Rattle.probe_core.specs.Bench.{seen_bench};
ghost use Rattle.dapseq_tool.specs.Answers.{answer_status, answer_text, failed_status};
ghost use Rattle.dapseq_tool.specs.Asked.{IsNoCommand, IsReadLine, IsRunLine, IsSoundAnswer, IsSoundRequest};
ghost use Rattle.dapseq_tool.specs.Frame.{CountsSink, IsFramed, IsFulfilled, IsStatusFor, IsUnasked, KeepsOver, RequestIsFinished};
ghost use Rattle.dapseq_tool.specs.Headline.{bench_moment, DoesWithBench, FailsWriting, IsPut};
ghost use Rattle.job_source.specs.Source.{AreTaken};
ghost use Rattle.dapseq_tool.specs.RunEnds.{DoesAfter};
ghost use Rattle.job_runs.specs.Runs.{access_kind};
ghost use Rattle.tool_calls.specs.Calls.{source_fault_line};

use crate::answering::{status_of, write_answer, write_head};
use crate::asking::{Answer, Requested, What, ask};
use crate::runs::run_asked;
use crate::status::Status;
use access_calls::OverBench;
use dap_base::{Sink, Source, Words};
use probe_core::Bench;
use std::alloc::Global;
use text_lines::TextError;
use tool_calls::Unasked;

/// How a call ended, and its bench.
#[derive(Drop)]
pub struct Over<B> {
    pub status: Status,
    /// The bench, as the calls left it.
    pub bench: B,
}

// The status where a text was not written whole.
fn failed_status(end: TextError) -> Status
    ensures { result ≡ failed_status end }
{
    match end {
        TextError::Failed => Status::WriteFault,
        TextError::OutOfMemory => Status::OutOfMemory,
    }
}

// Writes an answer.
fn answer<K: Sink>(alloc: Global, answer: &Answer, sink: &mut K) -> Status
    requires { IsSoundAnswer answer.now }
    ensures text { IsPut (K.written sink.old) (K.written sink.new) (answer_text answer.now) (answer_status answer.now) result }
    ensures sink { CountsSink (K.faults sink.old) (K.faults sink.new) result }
{
    match write_answer(alloc, answer, sink) {
        Ok(()) => status_of(answer),
        Err(end) => failed_status(end),
    }
}

// Does what is asked for, after the first line.
fn perform<B: Bench, K: Sink, A: OverBench<B>>(
    alloc: Global,
    what: &What,
    bench: B,
    sink: &mut K,
) -> Over<B>
    requires { IsSoundRequest what.now }
    ensures does { DoesAfter (access_kind A.Access.journal A.Access.cost A.Access.is_sparing) what.now (seen_bench B.reported B.state bench)
        (result.bench ≡ bench) (K.written sink.old)
        (record { written = K.written sink.new; end = result.status; bench = seen_bench B.reported B.state result.bench }) }
    ensures keeps { KeepsOver (B.identity result.bench ≡ B.identity bench) (K.faults sink.old) (K.faults sink.new)
        (B.reported bench).faults (B.reported result.bench).faults result.status }
    ensures status { IsStatusFor what.now result.status }
{
    match what {
        What::Answer(what) => Over {
            status: answer(alloc, what, sink),
            bench,
        },
        What::Run(run) => run_asked::<B, K, A>(alloc, run, bench, sink),
    }
}

// Reports that the source failed.
fn read_fault<K: Sink>(sink: &mut K) -> Status
    ensures text { IsPut (K.written sink.old) (K.written sink.new) source_fault_line Status.ReadFault result }
    ensures sink { CountsSink (K.faults sink.old) (K.faults sink.new) result }
    ensures ends { (result ≡ Status.ReadFault) ⊎ (result ≡ Status.WriteFault) }
{
    match sink.put(b"end readfault\n") {
        Ok(()) => Status::ReadFault,
        Err(_) => Status::WriteFault,
    }
}

// Does what is asked for: the first line, and then the rest.
fn fulfil<B: Bench, K: Sink, A: OverBench<B>>(
    alloc: Global,
    asked: &Requested,
    bench: B,
    sink: &mut K,
) -> Over<B>
    requires { IsSoundRequest asked.now.what }
    ensures done { IsFulfilled (access_kind A.Access.journal A.Access.cost A.Access.is_sparing) asked.now (seen_bench B.reported B.state bench)
        (result.bench ≡ bench) (K.written sink.old)
        (record { written = K.written sink.new; end = result.status; bench = seen_bench B.reported B.state result.bench }) }
    ensures keeps { KeepsOver (B.identity result.bench ≡ B.identity bench) (K.faults sink.old) (K.faults sink.new)
        (B.reported bench).faults (B.reported result.bench).faults result.status }
{
    match write_head(alloc, asked.number, sink) {
        Ok(()) => perform::<B, K, A>(alloc, &asked.what, bench, sink),
        Err(end) => Over {
            status: failed_status(end),
            bench,
        },
    }
}

// The status where it is not known what is asked for.
fn unasked_status<K: Sink>(end: Unasked, sink: &mut K) -> Status
    ensures unasked { IsUnasked end (K.written sink.old) (K.written sink.new) result }
    ensures sink { CountsSink (K.faults sink.old) (K.faults sink.new) result }
{
    match end {
        Unasked::OutOfMemory => Status::OutOfMemory,
        Unasked::ReadFault => read_fault(sink),
    }
}

// Does what is asked for, or ends where that is not known.
fn finish<B: Bench, K: Sink, A: OverBench<B>>(
    alloc: Global,
    asked: &Result<Requested, Unasked>,
    bench: B,
    sink: &mut K,
) -> Over<B>
    requires { IfOk asked.now (λ asked. IsSoundRequest asked.what) }
    ensures done { RequestIsFinished (access_kind A.Access.journal A.Access.cost A.Access.is_sparing) asked.now (seen_bench B.reported B.state bench)
        (result.bench ≡ bench) (K.written sink.old)
        (record { written = K.written sink.new; end = result.status; bench = seen_bench B.reported B.state result.bench }) }
    ensures keeps { KeepsOver (B.identity result.bench ≡ B.identity bench) (K.faults sink.old) (K.faults sink.new)
        (B.reported bench).faults (B.reported result.bench).faults result.status }
{
    match asked {
        Ok(asked) => fulfil::<B, K, A>(alloc, asked, bench, sink),
        Err(end) => Over {
            status: unasked_status(*end, sink),
            bench,
        },
    }
}

/// Makes a call: what [`dapseq_over`] says, in its parts.
pub fn make_call<S: Source, K: Sink, B: Bench, A: OverBench<B>>(
    alloc: Global,
    words: &Words,
    source: &mut S,
    sink: &mut K,
    bench: B,
) -> Over<B>
    ensures asked { let at = bench_moment S.left S.faults K.written K.faults B.reported B.state in
        DoesWithBench (access_kind A.Access.journal A.Access.cost A.Access.is_sparing)
        (record { words = words.now; old = at source.old sink.old bench; new = at source.new sink.new result.bench; end = result.status })
        (result.bench ≡ bench) }
    ensures frame { let at = bench_moment S.left S.faults K.written K.faults B.reported B.state in
        IsFramed (record { words = words.now; old = at source.old sink.old bench; new = at source.new sink.new result.bench; end = result.status })
        (source.new ≡ source.old) (result.bench ≡ bench) }
    ensures identity { B.identity result.bench ≡ B.identity bench }
{
    let asked = ask(alloc, words, source);
    let over = finish::<B, K, A>(alloc, &asked, bench, sink);
    // (a call drops the parts of all that can be asked for; here they would be part of this function's proof)
    drop(asked);
    over
}

/// Does all that [`dapseq`](crate::dapseq) does, by any access that is begun over the bench, which it owns and hands back. The program runs
/// by `Packed`, and tests run jobs by `Single` too. What a run leaves is said of that access: its journal, the need points of its calls,
/// and whether it keeps the bounds on packets. The statuses are those of `dapseq`.
pub fn dapseq_over<S: Source, K: Sink, B: Bench, A: OverBench<B>>(
    alloc: Global,
    words: &Words,
    source: &mut S,
    sink: &mut K,
    bench: B,
) -> Over<B>
    // What the words and the bytes ask for was done.
    ensures asked { let at = bench_moment S.left S.faults K.written K.faults B.reported B.state in
        DoesWithBench (access_kind A.Access.journal A.Access.cost A.Access.is_sparing)
        (record { words = words.now; old = at source.old sink.old bench; new = at source.new sink.new result.bench; end = result.status })
        (result.bench ≡ bench) }

    // The words alone decide on the usage, and whether the source is read: to its end, or one byte too far.
    ensures usage { result.status ≡ Status.Usage → IsNoCommand words.now }
    ensures usage_only { IsNoCommand words.now → (result.status ≡ Status.Usage) ⊎ (result.status ≡ Status.WriteFault) ⊎ (result.status ≡ Status.OutOfMemory) }
    ensures unread { (IsReadLine words.now → ⊥) → source.new ≡ source.old }
    ensures taken { IsReadLine words.now → IsQuiet (S.faults source.old) (S.faults source.new) → result.status ≢ Status.OutOfMemory
        → AreTaken (S.left source.old) (S.left source.new) }

    // The bench is called in the modes that run alone, and is the one that it was where the job is refused or the source failed.
    ensures bench_only_in_run { (result.bench ≡ bench) ⊎ IsRunLine words.now }
    ensures refusal_keeps_bench { result.status ≡ Status.Refused → result.bench ≡ bench }
    ensures read_fault_keeps_bench { result.status ≡ Status.ReadFault → result.bench ≡ bench }
    ensures source_fault_keeps_bench { (S.faults source.new ≡ S.faults source.old) ⊎ (result.bench ≡ bench) }
    ensures identity { B.identity result.bench ≡ B.identity bench }

    // Each fault has its cause.
    ensures read { result.status ≡ Status.ReadFault → Rose (S.faults source.old) (S.faults source.new) }
    ensures write { result.status ≡ Status.WriteFault → Rose (K.faults sink.old) (K.faults sink.new) }
    ensures bench { result.status ≡ Status.BenchFault → Rose (B.reported bench).faults (B.reported result.bench).faults }

    // A fault outside is reported.
    ensures source_counted { (S.faults source.new ≡ S.faults source.old) ⊎ (result.status ≡ Status.ReadFault) ⊎ (result.status ≡ Status.WriteFault) }
    ensures sink_counted { (K.faults sink.new ≡ K.faults sink.old) ⊎ (result.status ≡ Status.WriteFault) }
    ensures bench_counted { ((B.reported result.bench).faults ≡ (B.reported bench).faults) ⊎ FailsWriting result.status }
{
    make_call::<S, K, B, A>(alloc, words, source, sink, bench)
}
