//! A whole call in memory.
ghost use Rattle.std.specs.Prelude.{◌≡◌, ◌≢◌, IfOk, MatchBool};
ghost use Rattle.probe_core.specs.Memory.{IsBeforeLoad};
ghost use Rattle.dapseq_tool.specs.Asked.{AsksForRequest, IsRunLine};
ghost use Rattle.dapseq_tool.specs.Headline.{BenchCall};
ghost use Rattle.dapseq_tool.specs.InMemory.{IsCallInMemory};
ghost use Rattle.dapseq_tool.specs.Success.{RequestIsDone};
ghost use Rattle.dapseq_tool.specs.declared.asking.Requested.{Requested};
ghost use Rattle.dapseq_tool.specs.Packed.{packed_kind};

use crate::packed::dapseq;
use crate::status::Status;
use dap_base::{Failed, MemorySink, MemorySource, OutOfMemory, Source, Words};
use probe_core::MemoryBench;
use std::alloc::Global;
use std::marker::Model;

/// What a call in memory left: how it ended, the sink with what was written, and the bench.
#[derive(Drop)]
pub struct InMemory {
    /// How the call ended.
    pub status: Status,
    /// What was written.
    pub sink: MemorySink,
    /// The bench.
    pub bench: MemoryBench,
}

// A source in memory none of whose calls fails.
#[derive(Drop)]
struct BytesSource {
    inner: MemorySource,
}

impl Model for BytesSource {
    ghost use Rattle.std.specs.Prelude.{◌≡◌, []};
    ghost use Rattle.dap_base.specs.Memory.{SourceState};

    ghost Value = { SourceState };

    ghost view = { λ s. s.inner };

    ghost invariant = { λ s. s.inner.failing ≡ [] };
}

impl Source for BytesSource {
    ghost use Rattle.std.specs.Prelude.{Some};

    ghost left = { λ s. Some s.left };

    ghost faults = { λ _. 0 };

    fn take(&mut self, buf: &mut [u8]) -> Result<usize, Failed> {
        match self.inner.take(buf) {
            Ok(count) => Ok(count),
            Err(_) => unreachable!(),
        }
    }
}

// Such a source of a copy of the bytes.
fn source_of(alloc: Global, bytes: &[u8]) -> Result<BytesSource, OutOfMemory>
    ensures { IfOk result (λ s. s.left ≡ bytes.now) }
{
    let inner = MemorySource::new(alloc, bytes, &[])?;
    Ok(BytesSource { inner })
}

// Whether memory was refused, or the sink has no room.
fn is_out_of_room(status: Status) -> bool
    ensures { MatchBool result (Unit {0}) ((status ≢ Status.OutOfMemory) × (status ≢ Status.WriteFault)) }
{
    match status {
        Status::OutOfMemory | Status::WriteFault => true,
        Status::Done | Status::Refused | Status::Usage | Status::Stopped => false,
        Status::BenchFault | Status::ReadFault | Status::ReplyBad => false,
    }
}

/// Calls [`dapseq`](crate::dapseq) with these words over these bytes, a sink in memory and a bench in
/// memory that was not loaded. It does exactly what they ask for, to its end. Where the words ask for no run, and
/// where the job is refused, the bench is still one that was not loaded. `OutOfMemory` where memory is refused, or
/// the text has no room in the 64 MiB of the sink.
pub fn dapseq_in_memory(alloc: Global, words: &Words, bytes: &[u8]) -> Result<InMemory, OutOfMemory>
    // What the words and the bytes ask for was done.
    ensures done { IfOk result (λ end. (call : BenchCall) × IsCallInMemory words.now bytes.now end call
        × (asked : Requested) × AsksForRequest words.now bytes.now asked × RequestIsDone packed_kind call asked.number asked.what) }

    // A run alone loads the bench, and only where its job is not refused.
    ensures unloaded { IfOk result (λ end. (IsRunLine words.now → ⊥) → IsBeforeLoad end.bench) }
    ensures refused { IfOk result (λ end. end.status ≡ Status.Refused → IsBeforeLoad end.bench) }
{
    let mut source = source_of(alloc, bytes)?;
    let mut sink = MemorySink::new(alloc, &[])?;
    let mut bench = MemoryBench::new(alloc);
    let status = dapseq(alloc, words, &mut source, &mut sink, &mut bench);
    if is_out_of_room(status) {
        return Err(OutOfMemory);
    }
    Ok(InMemory {
        status,
        sink,
        bench,
    })
}
