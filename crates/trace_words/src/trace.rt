//! The words of a trace, from a source into a sink.
#![tactic(auto, using(text_lines::proofs::PutLemmas::no_part, crate::proofs::FaultLemmas::names_other, crate::proofs::TraceLemmas::going_start, crate::proofs::TraceLemmas::going_on))]

ghost use Rattle.std.specs.Prelude.{◌≡◌, ◌≢◌, ℕ, List, Some, IfOk, IfErr, OnErr, OnOk};
ghost use Rattle.std.specs.Io.KnownBytes.{Appends};
ghost use Rattle.dap_base.specs.Streams.{AppendsPrefix, PutAppends};
ghost use Rattle.text_lines.specs.Causes.{NamesFault};
ghost use Rattle.trace_words.specs.Telling.{tell};
ghost use Rattle.trace_words.specs.Words.{words_of_trace, are_good};

use crate::teller::Teller;
use dap_base::{Sink, Source};
use std::alloc::Global;
use trace_events::{Event, Events, ReadEnd};

/// Why the words of a trace were not written to their end.
#[derive(Clone, Copy, Debug, PartialEq, Eq)]
pub enum TraceEnd {
    /// The source failed.
    ReadFault,
    /// The sink failed.
    WriteFault,
    /// Memory was refused.
    OutOfMemory,
}

// Puts a text.
fn put<K: Sink>(text: &[u8], sink: &mut K) -> Result<(), TraceEnd>
    ensures text { PutAppends (K.written sink.old) (K.written sink.new) result text.now }
    ensures sink { NamesFault TraceEnd.WriteFault (K.faults sink.old) (K.faults sink.new) result }
    ensures other { IfErr result (λ e. e ≢ TraceEnd.ReadFault) }
{
    match sink.put(text) {
        Ok(()) => Ok(()),
        Err(_) => Err(TraceEnd::WriteFault),
    }
}

// Puts the words of an event.
fn put_event<K: Sink>(
    alloc: Global,
    teller: &mut Teller,
    event: Event,
    sink: &mut K,
) -> Result<(), TraceEnd>
    ensures text { PutAppends (K.written sink.old) (K.written sink.new) result (tell teller.old event).text }
    ensures teller { OnOk result (teller.new ≡ (tell teller.old event).telling) }
    ensures sink { NamesFault TraceEnd.WriteFault (K.faults sink.old) (K.faults sink.new) result }
    ensures other { IfErr result (λ e. e ≢ TraceEnd.ReadFault) }
{
    let told = teller.tell(alloc, &event);
    drop(event);
    match told {
        Ok(text) => put(text.as_slice(), sink),
        Err(_) => Err(TraceEnd::OutOfMemory),
    }
}

/// Writes the words of a trace: all that the source has. Whether each packet and reply of it is one.
///
/// - `ReadFault` where the source failed, `WriteFault` where the sink failed, `OutOfMemory` where memory is
///   refused. Then a part of the words was written, from the front.
pub fn trace_words<S: Source, K: Sink>(
    alloc: Global,
    source: &mut S,
    sink: &mut K,
) -> Result<bool, TraceEnd>
    // The words of all bytes, where they are known.
    ensures words { (bytes : List ℕ) → S.left source.old ≡ Some bytes
        → IfOk result (λ good. Appends (K.written sink.old) (K.written sink.new) (words_of_trace bytes) × (good ≡ are_good bytes)) }
    // At an error a part of them.
    ensures part { (bytes : List ℕ) → S.left source.old ≡ Some bytes
        → OnErr result (AppendsPrefix (K.written sink.old) (K.written sink.new) (words_of_trace bytes)) }
    // A fault is that of the object that failed.
    ensures source { NamesFault TraceEnd.ReadFault (S.faults source.old) (S.faults source.new) result }
    ensures sink { NamesFault TraceEnd.WriteFault (K.faults sink.old) (K.faults sink.new) result }
{
    let mut events = Events::new(alloc);
    let mut teller = Teller::new();
    for _ in 0..u64::MAX {
        let event = match events.next(alloc, source) {
            Ok(event) => event,
            Err(ReadEnd::ReadFault) => return Err(TraceEnd::ReadFault),
            Err(ReadEnd::OutOfMemory) => return Err(TraceEnd::OutOfMemory),
        };
        let Some(event) = event else {
            return Ok(teller.is_good());
        };
        put_event(alloc, &mut teller, event, sink)?;
    }
    Err(TraceEnd::OutOfMemory)
}
