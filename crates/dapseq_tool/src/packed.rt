//! The whole call over the access that packs, as the program makes it, and the same in memory.
ghost use Rattle.std.specs.Prelude.{◌≡◌, ◌≢◌, ◌⊎◌};
ghost use Rattle.dap_base.specs.Causes.{IsQuiet, Rose};
ghost use Rattle.dapseq_tool.specs.Asked.{IsNoCommand, IsReadLine, IsRunLine};
ghost use Rattle.dapseq_tool.specs.Frame.{IsCall};
ghost use Rattle.dapseq_tool.specs.Headline.{bench_moment, DoesWithBench, FailsWriting};
ghost use Rattle.job_source.specs.Source.{AreTaken};
ghost use Rattle.dapseq_tool.specs.Success.{HasGotBadReply, Success};
ghost use Rattle.dapseq_tool.specs.Packed.{packed_kind};

use crate::call::make_call;
use crate::status::Status;
use dap_base::{Sink, Source, Words};
use packed_access::Packed;
use probe_core::Bench;
use std::alloc::Global;

// Makes a call over a lent bench.
fn call_lent<S: Source, K: Sink, B: Bench>(
    alloc: Global,
    words: &Words,
    source: &mut S,
    sink: &mut K,
    bench: &mut B,
) -> Status
    ensures { let at = bench_moment S.left S.faults K.written K.faults B.reported B.state in
        IsCall packed_kind (record { words = words.now; old = at source.old sink.old bench.old; new = at source.new sink.new bench.new; end = result })
        (source.new ≡ source.old) (bench.new ≡ bench.old) }
{
    let over = make_call::<S, K, &mut B, Packed<&mut B>>(alloc, words, source, sink, &mut *bench);
    over.status
}

/// Does all that the program does. `check` reads a job of at most 16,777,216 bytes from the source, checks the sequences of a device, and
/// writes what it found. `run` and `trace` run one of them over the bench, and write its lines, its report and, in `trace`, its packets.
/// `gen` runs a job that is made by its number, and reads nothing. `load` runs a sequence, and then writes the image of the job through an
/// access port and reads it back. `scan` runs one, and then lists the components of an access port, at most 1,024, by its ROM tables.
/// `audit` compares the trace of a job with what its probe does, and writes the target after it or the first entry that cannot come.
///
/// - `Done`: the set of sequences is valid, the run came to its end, or the trace is accepted.
/// - `Stopped`: a rule of the sequences halted the run, or the target or the probe stopped it. The report says which,
///   and at a stop the unit, the counted accesses, and the target that exactly these leave. Or a byte of the image was
///   read back as another one, or there are more components: a line says so, and the target follows.
/// - `Usage`: exactly where the words are no command, unless the sink fails or memory is refused. The source is not
///   read.
/// - `Refused`: a line with the first reason is written. The bench is as it was.
/// - `BenchFault`: a call of the bench failed: at the load, in the run, or while the report was written.
/// - `ReadFault`: the source failed. The bench is as it was; `end readfault` is written.
/// - `WriteFault`: the sink failed. A part of the text is written, from its front.
/// - `ReplyBad`: the probe answered a packet with a reply that it cannot have. Never over an observable bench.
/// - `OutOfMemory`: memory was refused. A part of the text is written, from its front.
///
/// What is said of the target and of what is written of a run is known of an observable bench.
pub fn dapseq<S: Source, K: Sink, B: Bench>(
    alloc: Global,
    words: &Words,
    source: &mut S,
    sink: &mut K,
    bench: &mut B,
) -> Status
    // What the words and the bytes ask for was done.
    ensures asked { let at = bench_moment S.left S.faults K.written K.faults B.reported B.state in
        DoesWithBench packed_kind (record { words = words.now; old = at source.old sink.old bench.old; new = at source.new sink.new bench.new; end = result })
        (bench.new ≡ bench.old) }

    // Where nothing outside failed and the bench is observable, it was done whole.
    ensures success { let at = bench_moment S.left S.faults K.written K.faults B.reported B.state in
        Success packed_kind (record { words = words.now; old = at source.old sink.old bench.old; new = at source.new sink.new bench.new; end = result }) }

    // A bad reply is one that was received, and its bench is not observable.
    ensures bad_reply { let at = bench_moment S.left S.faults K.written K.faults B.reported B.state in
        result ≡ Status.ReplyBad → HasGotBadReply
        (record { words = words.now; old = at source.old sink.old bench.old; new = at source.new sink.new bench.new; end = result }) }

    // The words alone decide on the usage, and whether the source is read: to its end, or one byte too far.
    ensures usage { result ≡ Status.Usage → IsNoCommand words.now }
    ensures usage_only { IsNoCommand words.now → (result ≡ Status.Usage) ⊎ (result ≡ Status.WriteFault) ⊎ (result ≡ Status.OutOfMemory) }
    ensures unread { (IsReadLine words.now → ⊥) → source.new ≡ source.old }
    ensures taken { IsReadLine words.now → IsQuiet (S.faults source.old) (S.faults source.new) → result ≢ Status.OutOfMemory
        → AreTaken (S.left source.old) (S.left source.new) }

    // The bench is called in the modes that run alone, and is the one that it was where the job is refused or the source failed.
    ensures bench_only_in_run { (bench.new ≡ bench.old) ⊎ IsRunLine words.now }
    ensures refusal_keeps_bench { result ≡ Status.Refused → bench.new ≡ bench.old }
    ensures read_fault_keeps_bench { result ≡ Status.ReadFault → bench.new ≡ bench.old }
    ensures source_fault_keeps_bench { (S.faults source.new ≡ S.faults source.old) ⊎ (bench.new ≡ bench.old) }

    // Each fault has its cause.
    ensures read { result ≡ Status.ReadFault → Rose (S.faults source.old) (S.faults source.new) }
    ensures write { result ≡ Status.WriteFault → Rose (K.faults sink.old) (K.faults sink.new) }
    ensures bench { result ≡ Status.BenchFault → Rose (B.reported bench.old).faults (B.reported bench.new).faults }

    // A fault outside is reported.
    ensures source_counted { (S.faults source.new ≡ S.faults source.old) ⊎ (result ≡ Status.ReadFault) ⊎ (result ≡ Status.WriteFault) }
    ensures sink_counted { (K.faults sink.new ≡ K.faults sink.old) ⊎ (result ≡ Status.WriteFault) }
    ensures bench_counted { ((B.reported bench.new).faults ≡ (B.reported bench.old).faults) ⊎ FailsWriting result }
{
    call_lent(alloc, words, source, sink, bench)
}
