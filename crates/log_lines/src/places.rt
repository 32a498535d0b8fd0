//! Places of a set as text.
ghost use Rattle.std.specs.Prelude.{◌≡◌, ◌++◌, IfOk, Some};
ghost use Rattle.log_lines.specs.Places.{code_place, debug_spot, spot_in_step, spot_words, step_place_words};

use dap_base::{OutOfMemory, Place};
use sequence_trees::{Part, Spot, part_text};
use text_lines::Line;

// A place in code.
fn with_code_place(line: Line, part: Part, place: Place) -> Result<Line, OutOfMemory>
    ensures { IfOk result (λ l. l ≡ line ++ code_place part place) }
{
    match part {
        Part::Debugvars | Part::Block => line.add_place(place),
        Part::Control | Part::If | Part::While => Ok(line),
    }
}

// A step of a sequence.
fn with_step(line: Line, sequence: &str, path: &[u64]) -> Result<Line, OutOfMemory>
    ensures { IfOk result (λ l. l ≡ line ++ step_place_words (Some sequence.now) path.now) }
{
    let line = line.add_shown(sequence.as_bytes())?.text(" ")?;
    line.add_dotted(path)?.text(" ")
}

// The step of a place; the debug variables have none.
fn with_step_of(line: Line, spot: &Spot) -> Result<Line, OutOfMemory>
    ensures { IfOk result (λ l. l ≡ line ++ step_place_words spot.now.sequence spot.now.path) }
{
    match &spot.sequence {
        Some(name) => with_step(line, name.as_str(), spot.path.as_slice()),
        None => Ok(line),
    }
}

/// A line with a place after it: the sequence and the path of its step, its part, and in code its line and column. `OutOfMemory` where memory is
/// refused.
pub fn with_spot(line: Line, spot: &Spot) -> Result<Line, OutOfMemory>
    ensures { IfOk result (λ l. l ≡ line ++ spot_words spot.now) }
{
    let line = with_step_of(line, spot)?.text(part_text(spot.part))?;
    with_code_place(line, spot.part, spot.place)
}

/// A place in a step of a sequence.
pub fn with_spot_in(
    line: Line,
    sequence: &str,
    path: &[u64],
    part: Part,
    place: Place,
) -> Result<Line, OutOfMemory>
    ensures { IfOk result (λ l. l ≡ line ++ spot_words (spot_in_step sequence.now path.now part place)) }
{
    let line = with_step(line, sequence, path)?.text(part_text(part))?;
    with_code_place(line, part, place)
}

/// A place in the debug variables.
pub fn with_debug_spot(line: Line, place: Place) -> Result<Line, OutOfMemory>
    ensures { IfOk result (λ l. l ≡ line ++ spot_words (debug_spot place)) }
{
    line.text("debugvars")?.add_place(place)
}
