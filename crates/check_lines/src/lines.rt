//! The lines of the texts.
ghost use Rattle.std.specs.Prelude.{◌≡◌, ◌++◌, codes, IfOk};
ghost use Rattle.text_lines.specs.Shown.{shown_text};
ghost use Rattle.check_lines.specs.Words.{level_word, kind_word};
ghost use Rattle.check_lines.specs.CheckLines.{head_line, counts_words, sequence_line, step_words, where_words, fault_words, fault_line};

use crate::counts::counts_of;
use crate::words::{disabled_text, kind_text, level_text};
use code_check::FaultKind;
use dap_base::OutOfMemory;
use device_tree::Steps;
use sequence_resolve::SeqEntry;
use sequence_trees::{Spot, part_text};
use std::alloc::Global;
use text_lines::Line;

pub fn head_text(alloc: Global, sequences: u64) -> Result<Line, OutOfMemory>
    ensures { IfOk result (λ line. line ≡ head_line sequences) }
{
    Line::begin(alloc, "check ok sequences ")?
        .decimal(sequences)?
        .text("\n")
}

// The name of a sequence and the level that it comes from.
fn begin_sequence(alloc: Global, entry: &SeqEntry) -> Result<Line, OutOfMemory>
    ensures { IfOk result (λ line. line ≡ codes "sequence " ++ shown_text entry.now.name ++ codes " from " ++ level_word entry.now.from) }
{
    let line = Line::begin(alloc, "sequence ")?.add_shown(entry.name.as_str().as_bytes())?;
    line.text(" from ")?.text(level_text(entry.from))
}

fn with_counts(line: Line, steps: &Steps) -> Result<Line, OutOfMemory>
    ensures { IfOk result (λ l. l ≡ line ++ counts_words steps.now) }
{
    let counts = counts_of(steps)?;
    let line = line.add_labelled(" blocks ", counts.blocks)?;
    let line = line.add_labelled(" controls ", counts.controls)?;
    line.add_labelled(" atomic ", counts.atomic)
}

pub fn sequence_text(alloc: Global, entry: &SeqEntry) -> Result<Line, OutOfMemory>
    ensures { IfOk result (λ line. line ≡ sequence_line entry.now) }
{
    let line = begin_sequence(alloc, entry)?;
    let line = with_counts(line, entry.steps.as_steps())?;
    line.text(disabled_text(entry.disabled))?.text("\n")
}

// The sequence, the step and its part.
fn with_step(line: Line, name: &str, spot: &Spot) -> Result<Line, OutOfMemory>
    ensures { IfOk result (λ l. l ≡ line ++ step_words name.now spot.now.path spot.now.part) }
{
    let line = line.text(" ")?.add_shown(name.as_bytes())?;
    let line = line.text(" ")?.add_dotted(spot.path.as_slice())?;
    line.text(" ")?.text(part_text(spot.part))
}

/// The line with a space, and the sequence of a place, the numbers of the steps that lead to its step, and the part. In the debug variables
/// ` debugvars` is added. `OutOfMemory` where memory is refused; the line is then dropped.
pub fn with_where(line: Line, spot: &Spot) -> Result<Line, OutOfMemory>
    ensures { IfOk result (λ l. l ≡ line ++ where_words spot.now.sequence spot.now.path spot.now.part) }
{
    match &spot.sequence {
        Some(name) => with_step(line, name.as_str(), spot),
        None => line.text(" debugvars"),
    }
}

/// The line, with what is wrong and where added. That is the kind, the sequence, the numbers of the steps that lead to the step with dots
/// between them, its part, and line and column there. In the code of the debug variables `debugvars` is in place of sequence, steps and
/// part. `OutOfMemory` where memory is refused; the line is then dropped.
pub fn with_fault(line: Line, kind: FaultKind, spot: &Spot) -> Result<Line, OutOfMemory>
    ensures { IfOk result (λ l. l ≡ line ++ fault_words kind spot.now) }
{
    with_where(line.text(kind_text(kind))?, spot)?.add_place(spot.place)
}

pub fn fault_text(alloc: Global, kind: FaultKind, spot: &Spot) -> Result<Line, OutOfMemory>
    ensures { IfOk result (λ line. line ≡ fault_line kind spot.now) }
{
    with_fault(Line::begin(alloc, "refused check ")?, kind, spot)?.text("\n")
}
