//! Writing the texts line by line.
ghost use Rattle.std.specs.List.{flat_map};
ghost use Rattle.text_lines.specs.Puts.{PutsText};
ghost use Rattle.check_lines.specs.CheckLines.{sequence_line, check_text, fault_line};

use crate::lines::{fault_text, head_text, sequence_text};
use code_check::FaultKind;
use dap_base::Sink;
use sequence_resolve::{SeqEntry, SeqSet};
use sequence_trees::Spot;
use std::alloc::Global;
use text_lines::{TextError, put_line};

// Puts the lines of sequences.
fn write_sequences<K: Sink>(
    alloc: Global,
    entries: &[SeqEntry],
    sink: &mut K,
) -> Result<(), TextError>
    ensures puts { PutsText (flat_map sequence_line entries.now) result TextError.Failed K.written K.faults sink.old sink.new }
{
    for entry in entries {
        put_line(sequence_text(alloc, entry), sink)?;
    }
    Ok(())
}

/// Puts what `check` writes of a valid set, each line by one `put`: how many sequences it has, and then a line for each in the set's order.
/// That has its name, the level that it comes from, and the numbers of its blocks, controls and atomic blocks at all depths. Last it says
/// whether the sequence is disabled.
///
/// `Failed` where the sink failed, `OutOfMemory` where memory is refused, as it is for 2^64 steps; a
/// prefix of the text was then appended.
pub fn write_check<K: Sink>(alloc: Global, set: &SeqSet, sink: &mut K) -> Result<(), TextError>
    ensures puts { PutsText (check_text set.now) result TextError.Failed K.written K.faults sink.old sink.new }
{
    put_line(head_text(alloc, set.entries.len() as u64), sink)?;
    write_sequences(alloc, set.entries.as_slice(), sink)
}

/// Puts the line of a fault of a set by one `put`. It has what is wrong, the sequence, the numbers of the steps that lead to the step, its
/// part, and line and column there. The code of the debug variables belongs to no sequence: there `debugvars` is in place of sequence,
/// steps and part.
///
/// `Failed` where the sink failed, `OutOfMemory` where memory is refused; a prefix of the line was
/// then appended.
pub fn write_check_fault<K: Sink>(
    alloc: Global,
    kind: FaultKind,
    spot: &Spot,
    sink: &mut K,
) -> Result<(), TextError>
    ensures puts { PutsText (fault_line kind spot.now) result TextError.Failed K.written K.faults sink.old sink.new }
{
    put_line(fault_text(alloc, kind, spot), sink)
}
