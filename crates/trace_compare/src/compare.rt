//! The comparison of two traces, from two sources into a sink.
ghost use Rattle.std.specs.Prelude.{◌≡◌, ℕ, ◌&&◌, List, Some, IfErr, IfOk, OnErr, OnOk};
ghost use Rattle.std.specs.Io.KnownBytes.{Appends};
ghost use Rattle.dap_base.specs.Streams.{AppendsPrefix};
ghost use Rattle.text_lines.specs.Causes.{NamesFault};
ghost use Rattle.trace_compare.specs.Comparison.{are_alike, are_both_absent, is_right, words_against};
ghost use Rattle.trace_compare.specs.Faults.{IsOfSink, NamesEach};
ghost use Rattle.trace_compare.specs.Pairs.{alike_left, compared_left, comparison_left, PutsDifference};
ghost use Rattle.trace_compare.specs.Texts.{two_text};

use crate::counter::Counter;
use crate::put::put;
use crate::summary::put_summary;
use crate::texts::two_text;
use crate::traces::{Traces, Two};
use dap_base::{Sink, Source};
use std::alloc::Global;

/// Why the comparison of two traces was not written to its end.
#[derive(Clone, Copy, Debug, PartialEq, Eq)]
pub enum CompareEnd {
    /// The source of the trace failed.
    ReadFault,
    /// The source of the trace that it is compared with failed.
    AgainstFault,
    /// The sink failed.
    WriteFault,
    /// Memory was refused.
    OutOfMemory,
}

// Puts the exchanges after so many that are the same. Whether neither is there.
fn put_two<K: Sink>(alloc: Global, last: u64, two: Two, sink: &mut K) -> Result<bool, CompareEnd>
    ensures text { OnOk result (Appends (K.written sink.old) (K.written sink.new) (two_text last two.trace two.against)) }
    ensures part { OnErr result (AppendsPrefix (K.written sink.old) (K.written sink.new) (two_text last two.trace two.against)) }
    ensures end { IfOk result (λ end. end ≡ are_both_absent two.trace two.against) }
    ensures sink { NamesFault CompareEnd.WriteFault (K.faults sink.old) (K.faults sink.new) result }
    ensures other { IfErr result IsOfSink }
{
    let is_end = two.is_end();
    let text = two_text(alloc, last, &two);
    drop(two);
    let Ok(text) = text else {
        return Err(CompareEnd::OutOfMemory);
    };
    put(text.as_slice(), sink)?;
    Ok(is_end)
}

// Puts the first exchanges that are not the same, or that all are. Whether all are.
#[tactic(auto, using(crate::proofs::FaultLemmas::names_other))]
fn put_difference<S: Source, A: Source, K: Sink>(
    alloc: Global,
    traces: &mut Traces,
    source: &mut S,
    against: &mut A,
    sink: &mut K,
) -> Result<bool, CompareEnd>
    ensures text { IfOk result (PutsDifference traces.old traces.new (S.left source.old) (S.left source.new) (A.left against.old)
        (A.left against.new) (K.written sink.old) (K.written sink.new)) }
    ensures part { (a b : List ℕ) → S.left source.old ≡ Some a → A.left against.old ≡ Some b
        → OnErr result (AppendsPrefix (K.written sink.old) (K.written sink.new) (compared_left 0 traces.old a b).text) }
    ensures faults { NamesEach result (S.faults source.old) (S.faults source.new) (A.faults against.old) (A.faults against.new) (K.faults sink.old) (K.faults sink.new) }
{
    let mut last = 0u64;
    for _ in 0..u64::MAX {
        let two = traces.next(alloc, source, against)?;
        match two.same_number() {
            Some(number) => last = number,
            None => return put_two(alloc, last, two, sink),
        }
        drop(two);
    }
    Err(CompareEnd::OutOfMemory)
}

// Whether the exchanges are the same, and each packet and reply is one.
fn is_alike(is_same: bool, trace: &Counter, against: &Counter) -> bool
    ensures { result ≡ (is_same && is_right trace.now && is_right against.now) }
{
    is_same && trace.count_wrong() == 0 && against.count_wrong() == 0
}

// Writes the comparison of two traces, from their first exchanges on.
fn put_comparison<S: Source, A: Source, K: Sink>(
    alloc: Global,
    traces: &mut Traces,
    source: &mut S,
    against: &mut A,
    sink: &mut K,
) -> Result<bool, CompareEnd>
    ensures words { (a b : List ℕ) → S.left source.old ≡ Some a → A.left against.old ≡ Some b
        → IfOk result (λ alike. Appends (K.written sink.old) (K.written sink.new) (comparison_left traces.old a b) × (alike ≡ alike_left traces.old a b)) }
    ensures part { (a b : List ℕ) → S.left source.old ≡ Some a → A.left against.old ≡ Some b
        → OnErr result (AppendsPrefix (K.written sink.old) (K.written sink.new) (comparison_left traces.old a b)) }
    ensures faults { NamesEach result (S.faults source.old) (S.faults source.new) (A.faults against.old) (A.faults against.new) (K.faults sink.old) (K.faults sink.new) }
{
    let is_same = put_difference(alloc, traces, source, against, sink)?;
    traces.take_all(alloc, source, against)?;
    let (trace, against) = (traces.trace.counter(), traces.against.counter());
    put_summary(alloc, trace, against, sink)?;
    Ok(is_alike(is_same, trace, against))
}

/// Writes the comparison of two traces: the first exchanges that are not the same, or that one trace ends first, or
/// that all are the same. Then how many packets and replies of each are none, unless neither has such a one, and how
/// many accesses of each register each has, where the numbers differ. It answers whether the exchanges are the same, and
/// each packet and reply is one.
///
/// - `ReadFault` where the source of the trace failed, `AgainstFault` where the other failed, `WriteFault` where the
///   sink failed, `OutOfMemory` where memory is refused. Then a part of the text was written, from the front.
pub fn compare_traces<S: Source, A: Source, K: Sink>(
    alloc: Global,
    source: &mut S,
    against: &mut A,
    sink: &mut K,
) -> Result<bool, CompareEnd>
    // The comparison of all bytes of both, where they are known.
    ensures words { (bytes others : List ℕ) → S.left source.old ≡ Some bytes → A.left against.old ≡ Some others
        → IfOk result (λ alike. Appends (K.written sink.old) (K.written sink.new) (words_against bytes others) × (alike ≡ are_alike bytes others)) }
    // At an error a part of it.
    ensures part { (bytes others : List ℕ) → S.left source.old ≡ Some bytes → A.left against.old ≡ Some others
        → OnErr result (AppendsPrefix (K.written sink.old) (K.written sink.new) (words_against bytes others)) }
    // A fault is that of the object that failed.
    ensures source { NamesFault CompareEnd.ReadFault (S.faults source.old) (S.faults source.new) result }
    ensures against { NamesFault CompareEnd.AgainstFault (A.faults against.old) (A.faults against.new) result }
    ensures sink { NamesFault CompareEnd.WriteFault (K.faults sink.old) (K.faults sink.new) result }
{
    let Ok(mut traces) = Traces::new(alloc) else {
        return Err(CompareEnd::OutOfMemory);
    };
    let done = put_comparison(alloc, &mut traces, source, against, sink);
    drop(traces);
    done
}
