//! What happens at a place, in words.
ghost use Rattle.std.specs.Prelude.{◌≡◌, ◌++◌, IfOk, Some};
ghost use Rattle.sequence_trees.specs.declared.spot.Part.TheVariants as parts;
ghost use Rattle.log_lines.specs.Places.{condition_spot, spot_in_step, spot_words, step_place_words};
ghost use Rattle.run_coverage.specs.Items.{ran_words};

use dap_base::{OutOfMemory, Place};
use std::alloc::Global;
use text_lines::Line;

// What happens, and a step of a sequence.
fn begin_words(alloc: Global, what: &str, sequence: &str, path: &[u64]) -> Result<Line, OutOfMemory>
    ensures { IfOk result (λ l. l ≡ what.now ++ step_place_words (Some sequence.now) path.now) }
{
    let line = Line::begin(alloc, what)?.add_shown(sequence.as_bytes())?;
    line.text(" ")?.add_dotted(path)?.text(" ")
}

/// A statement of a block runs.
pub fn statement_words(
    alloc: Global,
    sequence: &str,
    path: &[u64],
    place: Place,
) -> Result<Line, OutOfMemory>
    ensures { IfOk result (λ l. l ≡ ran_words (spot_in_step sequence.now path.now parts.Block place)) }
{
    let line = begin_words(alloc, "ran ", sequence, path)?.text("block")?;
    line.add_labelled(" ", place.line)?
        .add_labelled(":", place.column)
}

/// What happens at the `if` of a control.
pub fn if_words(
    alloc: Global,
    what: &str,
    sequence: &str,
    path: &[u64],
) -> Result<Line, OutOfMemory>
    ensures { IfOk result (λ l. l ≡ what.now ++ spot_words (condition_spot sequence.now path.now parts.If)) }
{
    begin_words(alloc, what, sequence, path)?.text("if")
}

/// What happens at the `while` of a control.
pub fn while_words(
    alloc: Global,
    what: &str,
    sequence: &str,
    path: &[u64],
) -> Result<Line, OutOfMemory>
    ensures { IfOk result (λ l. l ≡ what.now ++ spot_words (condition_spot sequence.now path.now parts.While)) }
{
    begin_words(alloc, what, sequence, path)?.text("while")
}
