//! Writing the text fault by fault.
ghost use Rattle.std.specs.Prelude.{◌≡◌, ◌++◌, ℕ, List, IfOk, OnOk};
ghost use Rattle.std.specs.List.{flat_map};
ghost use Rattle.text_lines.specs.Puts.{PutsText};
ghost use Rattle.fault_lines.specs.FaultText as text;
ghost use Rattle.fault_lines.specs.FaultText.{fault_text, last_line, faults_text};

use crate::counts::counts_line;
use crate::lines::{first_line, for_line};
use crate::source::{place_lines, push};
use dap_base::{NameText, OutOfMemory, Sink};
use pack_faults::{PackFault, PackFaults, SetName};
use std::alloc::Global;
use text_lines::{Line, TextError, put_line, put_text};

/// The line in which a fault is and the caret, where there is one.
pub fn place_text(
    alloc: Global,
    line: &Option<NameText>,
    column: u64,
) -> Result<Vec<u8>, OutOfMemory>
    ensures { IfOk result (λ t. t.items ≡ text.caret_lines line.now column) }
{
    match line {
        Some(line) => place_lines(alloc, line.as_str().as_bytes(), column),
        None => Ok(Vec::new(alloc)),
    }
}

// The lines of a fault.
fn text_of(alloc: Global, sets: &[SetName], fault: &PackFault) -> Result<Vec<u8>, OutOfMemory>
    ensures { IfOk result (λ t. t.items ≡ fault_text sets.now fault.now) }
{
    let found = &fault.found;
    let mut text = Vec::new(alloc);
    push(&mut text, first_line(alloc, found)?.as_bytes())?;
    let place = place_text(alloc, &found.line, found.fault.spot.place.column)?;
    push(&mut text, &place)?;
    push(
        &mut text,
        for_line(alloc, sets, fault.sets.as_slice())?.as_bytes(),
    )?;
    Ok(text)
}

/// Puts a text by one `put`, if there was memory for it.
#[tactic(auto, using(text_lines::proofs::PutLemmas::no_part))]
pub fn put_made<K: Sink>(text: Result<Vec<u8>, OutOfMemory>, sink: &mut K) -> Result<(), TextError>
    ensures puts { (bytes : List ℕ) → IfOk text (λ t. t.items ≡ bytes) → PutsText bytes result TextError.Failed K.written K.faults sink.old sink.new }
{
    match text {
        Ok(text) => put_text(&text, sink),
        Err(_) => Err(TextError::OutOfMemory),
    }
}

/// Puts the lines of each fault.
pub fn write_each<K: Sink>(
    alloc: Global,
    sets: &[SetName],
    faults: &[PackFault],
    sink: &mut K,
) -> Result<(), TextError>
    ensures puts { PutsText (flat_map (fault_text sets.now) faults.now) result TextError.Failed K.written K.faults sink.old sink.new }
{
    for fault in faults {
        put_made(text_of(alloc, sets, fault), sink)?;
    }
    Ok(())
}

// The line of counts.
fn counts_of(alloc: Global, faults: &PackFaults) -> Result<Line, OutOfMemory>
    ensures { IfOk result (λ line. line ≡ last_line faults.now) }
{
    counts_line(
        alloc,
        faults.faults.len() as u64,
        faults.devices as u64,
        faults.sets.len() as u64,
        faults.unread as u64,
        faults.unreached as u64,
    )
}

/// Puts the text of the faults of a pack, the lines of each fault by one `put`. They are what is wrong and where, with the name that it is
/// about, and its line in the text with a caret below its place. Then come the first two sets that have it, and how many there are more.
/// Last comes the line of counts.
///
/// `Failed` where the sink failed, `OutOfMemory` where memory is refused; a prefix of the text was then appended.
pub fn write_faults<K: Sink>(
    alloc: Global,
    faults: &PackFaults,
    sink: &mut K,
) -> Result<(), TextError>
    ensures puts { PutsText (faults_text faults.now) result TextError.Failed K.written K.faults sink.old sink.new }
{
    write_each(
        alloc,
        faults.sets.as_slice(),
        faults.faults.as_slice(),
        sink,
    )?;
    put_line(counts_of(alloc, faults), sink)
}
