//! The lines of a warning.
ghost use Rattle.std.specs.Prelude.{◌≡◌, ◌++◌, IfOk};
ghost use Rattle.fault_lines.specs.WarningText as text;
ghost use Rattle.fault_lines.specs.WarningText.{warning_kind_word, warning_spot_words, warning_words};
ghost use Rattle.fault_lines.specs.FaultText.{after_blank};

use crate::lines::{with_sets, with_text};
use check_lines::with_where;
use dap_base::{NameText, OutOfMemory};
use pack_faults::SetName;
use pack_warnings::{FoundWarning, PackWarning};
use sequence_trees::Spot;
use set_warnings::WarningKind;
use std::alloc::Global;
use text_lines::Line;

/// The name of a kind of warning.
pub fn warning_kind_text(kind: WarningKind) -> &'static str
    ensures { result.now ≡ warning_kind_word kind }
{
    match kind {
        WarningKind::AssignedDebugVariable => "AssignedDebugVariable",
        WarningKind::WaitByName => "WaitByName",
        WarningKind::UncalledSequence => "UncalledSequence",
        WarningKind::LongWait => "LongWait",
    }
}

// A sequence itself.
fn with_sequence(line: Line, sequence: &Option<NameText>) -> Result<Line, OutOfMemory>
    ensures { IfOk result (λ l. l ≡ line ++ after_blank sequence.now) }
{
    match sequence {
        Some(name) => line.text(" ")?.add_shown(name.as_str().as_bytes()),
        None => Ok(line),
    }
}

// Where it stands.
fn with_spot(line: Line, spot: &Spot) -> Result<Line, OutOfMemory>
    ensures { IfOk result (λ l. l ≡ line ++ warning_spot_words spot.now) }
{
    match spot.path.as_slice() {
        [] => with_sequence(line, &spot.sequence),
        _ => with_where(line, spot)?.add_place(spot.place),
    }
}

// What it is of, where, and the name that it is about.
fn with_warning(line: Line, found: &FoundWarning) -> Result<Line, OutOfMemory>
    ensures { IfOk result (λ l. l ≡ line ++ warning_words found.now) }
{
    let line = line.text(warning_kind_text(found.warning.kind))?;
    let line = with_spot(line, &found.warning.spot)?;
    with_text(line, &found.warning.name)
}

pub fn warning_line(alloc: Global, found: &FoundWarning) -> Result<Line, OutOfMemory>
    ensures { IfOk result (λ line. line ≡ text.warning_line found.now) }
{
    with_warning(Line::begin(alloc, "warning ")?, found)?.text("\n")
}

/// A warning in one line, without a line feed: what it is of, where, and the name that it is about, and the sets that have
/// it. `OutOfMemory` where memory is refused.
pub fn warning_message_line(
    alloc: Global,
    sets: &[SetName],
    warning: &PackWarning,
) -> Result<Line, OutOfMemory>
    ensures { IfOk result (λ line. line ≡ text.warning_message sets.now warning.now) }
{
    let line = with_warning(Line::begin(alloc, "")?, &warning.found)?;
    with_sets(line.text(" for ")?, sets, warning.sets.as_slice())
}
