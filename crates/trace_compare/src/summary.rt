//! What is counted of two traces, into a sink.
ghost use Rattle.std.specs.Prelude.{◌<◌};
ghost use Rattle.trace_compare.specs.Comparison.{summary};
ghost use Rattle.trace_compare.specs.Faults.{PutsOnly};
ghost use Rattle.trace_compare.specs.Texts.{count_line, place_count_lines};

use crate::compare::CompareEnd;
use crate::counter::Counter;
use crate::counts::{Counts, PLACES};
use crate::put::put_line;
use crate::texts::{count_line, wrong_line};
use dap_base::Sink;
use std::alloc::Global;

// Puts how many accesses there are of a place, where the numbers differ.
#[tactic(auto, unfolding(crate::specs::Texts::count_line), using(text_lines::proofs::PutLemmas::nothing))]
fn put_count<K: Sink>(
    alloc: Global,
    place: u16,
    first: u64,
    second: u64,
    sink: &mut K,
) -> Result<(), CompareEnd>
    requires { place < 32800 }
    ensures { PutsOnly (count_line place first second) result K.written K.faults sink.old sink.new }
{
    if first == second {
        return Ok(());
    }
    put_line(count_line(alloc, place, first, second), sink)
}

// Puts how many accesses there are of each place, where the numbers differ.
fn put_counts<K: Sink>(
    alloc: Global,
    first: &Counts,
    second: &Counts,
    sink: &mut K,
) -> Result<(), CompareEnd>
    ensures { PutsOnly (place_count_lines 32800 first.now second.now) result K.written K.faults sink.old sink.new }
{
    for place in 0..PLACES {
        put_count(alloc, place, first.get(place), second.get(place), sink)?;
    }
    Ok(())
}

/// Puts what is counted of two traces.
pub fn put_summary<K: Sink>(
    alloc: Global,
    first: &Counter,
    second: &Counter,
    sink: &mut K,
) -> Result<(), CompareEnd>
    ensures { PutsOnly (summary first.now second.now) result K.written K.faults sink.old sink.new }
{
    put_line(
        wrong_line(alloc, first.count_wrong(), second.count_wrong()),
        sink,
    )?;
    put_counts(alloc, first.counts(), second.counts(), sink)
}
