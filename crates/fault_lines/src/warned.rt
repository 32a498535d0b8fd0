//! Writing the text of faults and warnings.
ghost use Rattle.std.specs.Prelude.{◌≡◌, IfOk};
ghost use Rattle.std.specs.List.{flat_map};
ghost use Rattle.text_lines.specs.Puts.{PutsText};
ghost use Rattle.fault_lines.specs.WarningText.{warning_text, warned_line, warnings_text, warned_text};

use crate::counts::warned_counts_line;
use crate::lines::for_line;
use crate::source::push;
use crate::warning_lines::warning_line;
use crate::writing::{place_text, put_made, write_each};
use dap_base::{OutOfMemory, Sink};
use pack_faults::{PackFaults, SetName};
use pack_warnings::PackWarning;
use std::alloc::Global;
use text_lines::{Line, TextError, put_line};

// The lines of a warning.
fn text_of(alloc: Global, sets: &[SetName], warning: &PackWarning) -> Result<Vec<u8>, OutOfMemory>
    ensures { IfOk result (λ t. t.items ≡ warning_text sets.now warning.now) }
{
    let found = &warning.found;
    let mut text = Vec::new(alloc);
    push(&mut text, warning_line(alloc, found)?.as_bytes())?;
    let place = place_text(alloc, &found.line, found.warning.spot.place.column)?;
    push(&mut text, &place)?;
    push(
        &mut text,
        for_line(alloc, sets, warning.sets.as_slice())?.as_bytes(),
    )?;
    Ok(text)
}

// Puts the lines of each warning.
fn write_warnings<K: Sink>(
    alloc: Global,
    sets: &[SetName],
    warnings: &[PackWarning],
    sink: &mut K,
) -> Result<(), TextError>
    ensures puts { PutsText (flat_map (warning_text sets.now) warnings.now) result TextError.Failed K.written K.faults sink.old sink.new }
{
    for warning in warnings {
        put_made(text_of(alloc, sets, warning), sink)?;
    }
    Ok(())
}

// The line of counts.
fn counts_of(
    alloc: Global,
    faults: &PackFaults,
    warnings: &[PackWarning],
) -> Result<Line, OutOfMemory>
    ensures { IfOk result (λ line. line ≡ warned_line faults.now warnings.now) }
{
    warned_counts_line(
        alloc,
        faults.faults.len() as u64,
        faults.devices as u64,
        faults.sets.len() as u64,
        faults.unread as u64,
        faults.unreached as u64,
        warnings.len() as u64,
    )
}

// Puts the lines of each warning and the line of counts.
fn write_rest<K: Sink>(
    alloc: Global,
    faults: &PackFaults,
    warnings: &[PackWarning],
    sink: &mut K,
) -> Result<(), TextError>
    ensures puts { PutsText (warnings_text faults.now warnings.now) result TextError.Failed K.written K.faults sink.old sink.new }
{
    write_warnings(alloc, faults.sets.as_slice(), warnings, sink)?;
    put_line(counts_of(alloc, faults, warnings), sink)
}

/// Puts the text of the faults of a pack as `write_faults` does, with the warnings after the faults. Each has the word `warning` before it,
/// and their number is at the end of the line of counts.
///
/// `Failed` where the sink failed, `OutOfMemory` where memory is refused; a prefix of the text was then appended.
pub fn write_warned<K: Sink>(
    alloc: Global,
    faults: &PackFaults,
    warnings: &[PackWarning],
    sink: &mut K,
) -> Result<(), TextError>
    ensures puts { PutsText (warned_text faults.now warnings.now) result TextError.Failed K.written K.faults sink.old sink.new }
{
    write_each(
        alloc,
        faults.sets.as_slice(),
        faults.faults.as_slice(),
        sink,
    )?;
    write_rest(alloc, faults, warnings, sink)
}
