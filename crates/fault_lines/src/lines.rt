//! The lines of a fault.
ghost use Rattle.std.specs.Prelude.{◌≡◌, ◌++◌, IfOk, slice_get, option_map};
ghost use Rattle.fault_lines.specs.FaultText as text;
ghost use Rattle.fault_lines.specs.FaultText.{name_in, name_if, first_words, after_blank, set_words, set_words_at, more_words, for_words};

use crate::name::{called_at, quoted_at, word_at};
use check_lines::with_fault;
use code_check::FaultKind;
use dap_base::{NameText, OutOfMemory};
use pack_faults::{Found, PackFault, SetName};
use std::alloc::Global;
use text_lines::Line;

// The name that a fault of this kind is about, in the line.
fn name_in(kind: FaultKind, line: &[u8], column: u64) -> Option<&[u8]>
    ensures { option_map (λ name. name.now) result ≡ name_in kind line.now column }
{
    match kind {
        FaultKind::UndefinedName
        | FaultKind::Redeclared
        | FaultKind::UndefinedFunction
        | FaultKind::ArgumentCount => Some(word_at(line, column)),
        FaultKind::UndefinedSequence => Some(quoted_at(line, column)),
        FaultKind::Syntax
        | FaultKind::TextExpected
        | FaultKind::NumberExpected
        | FaultKind::FormatMismatch
        | FaultKind::BadDebugvars
        | FaultKind::UnboundedLoop
        | FaultKind::TimeoutTooLong
        | FaultKind::NestedTooDeep => None,
        FaultKind::CallCycle | FaultKind::CallsTooDeep => called_at(line, column),
    }
}

/// The name that the fault is about, as its line spells it: the variable or function that is used, declared or called,
/// or the sequence that a text names. `None` where it is about none, or where a call names its sequence in another line.
pub fn name_of(found: &Found) -> Option<&[u8]>
    ensures { option_map (λ name. name.now) result ≡ text.name_in_found found.now }
{
    match &found.line {
        Some(line) => name_in(
            found.fault.kind,
            line.as_str().as_bytes(),
            found.fault.spot.place.column,
        ),
        None => None,
    }
}

// A blank and the name, where there is one.
fn with_name(line: Line, name: Option<&[u8]>) -> Result<Line, OutOfMemory>
    ensures { IfOk result (λ l. l ≡ line ++ after_blank (option_map (λ n. n.now) name.entry)) }
{
    match name {
        Some(name) => line.text(" ")?.add_shown(name),
        None => Ok(line),
    }
}

/// A blank and the name, where there is one.
pub fn with_text(line: Line, name: &Option<NameText>) -> Result<Line, OutOfMemory>
    ensures { IfOk result (λ l. l ≡ line ++ after_blank name.now) }
{
    match name {
        Some(name) => line.text(" ")?.add_shown(name.as_str().as_bytes()),
        None => Ok(line),
    }
}

// What is wrong, where, and the name that it is about.
fn with_first(line: Line, found: &Found) -> Result<Line, OutOfMemory>
    ensures { IfOk result (λ l. l ≡ line ++ first_words found.now) }
{
    let line = with_fault(line, found.fault.kind, &found.fault.spot)?;
    with_name(line, name_of(found))
}

pub fn first_line(alloc: Global, found: &Found) -> Result<Line, OutOfMemory>
    ensures { IfOk result (λ line. line ≡ text.first_line found.now) }
{
    with_first(Line::begin(alloc, "")?, found)?.text("\n")
}

// The names of a set.
fn with_set(line: Line, set: &SetName) -> Result<Line, OutOfMemory>
    ensures { IfOk result (λ l. l ≡ line ++ set_words set.now) }
{
    let line = line.add_shown(set.device.as_str().as_bytes())?;
    let line = with_text(line, &set.variant)?;
    with_text(line, &set.pname)
}

fn with_set_at(line: Line, sets: &[SetName], place: usize) -> Result<Line, OutOfMemory>
    ensures { IfOk result (λ l. l ≡ line ++ set_words_at sets.now place) }
{
    match sets.get(place) {
        Some(set) => with_set(line, set),
        None => Ok(line),
    }
}

fn with_more(line: Line, more: &[usize]) -> Result<Line, OutOfMemory>
    ensures { IfOk result (λ l. l ≡ line ++ more_words more.now) }
{
    match more {
        [] => Ok(line),
        _ => line.add_labelled(" and ", more.len() as u64)?.text(" more"),
    }
}

/// The first two of the sets at these places, and how many there are more.
pub fn with_sets(line: Line, sets: &[SetName], places: &[usize]) -> Result<Line, OutOfMemory>
    ensures { IfOk result (λ l. l ≡ line ++ for_words sets.now places.now) }
{
    match places {
        [] => Ok(line),
        [only] => with_set_at(line, sets, *only),
        [first, second, more @ ..] => {
            let line = with_set_at(line, sets, *first)?.text(", ")?;
            with_more(with_set_at(line, sets, *second)?, more)
        }
    }
}

pub fn for_line(alloc: Global, sets: &[SetName], places: &[usize]) -> Result<Line, OutOfMemory>
    ensures { IfOk result (λ line. line ≡ text.for_line sets.now places.now) }
{
    with_sets(Line::begin(alloc, "    for ")?, sets, places)?.text("\n")
}

/// A fault in one line, without a line feed: what is wrong, where, and the name that it is about, and the sets that have
/// it. `OutOfMemory` where memory is refused.
pub fn message_line(alloc: Global, sets: &[SetName], fault: &PackFault) -> Result<Line, OutOfMemory>
    ensures { IfOk result (λ line. line ≡ text.message_words sets.now fault.now) }
{
    let line = with_first(Line::begin(alloc, "")?, &fault.found)?;
    with_sets(line.text(" for ")?, sets, fault.sets.as_slice())
}
