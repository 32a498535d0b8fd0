//! The path of a job's fault, as a line shows it.
ghost use Rattle.std.specs.Prelude.{◌≡◌, ◌++◌, IfOk};
ghost use Rattle.std.specs.List.{flat_map};
ghost use Rattle.text_lines.specs.Shown.{shown_text};
ghost use Rattle.check_lines.specs.PathText.{escaped_byte, step_text, path_text};

use dap_base::OutOfMemory;
use device_tree::{Path, PathStep};
use text_lines::Line;

fn with_byte(line: Line, byte: u8) -> Result<Line, OutOfMemory>
    ensures { IfOk result (λ l. l ≡ line ++ shown_text (escaped_byte byte)) }
{
    match byte {
        b'~' => line.add_shown(b"~0"),
        b'/' => line.add_shown(b"~1"),
        _ => line.add_shown(&[byte]),
    }
}

fn with_name(line: Line, name: &[u8]) -> Result<Line, OutOfMemory>
    ensures { IfOk result (λ l. l ≡ line ++ shown_text (flat_map escaped_byte name.now)) }
{
    let mut line = line;
    for byte in name {
        line = with_byte(line, *byte)?;
    }
    Ok(line)
}

// A slash, and the key or the number of the item.
fn with_step(line: Line, step: &PathStep) -> Result<Line, OutOfMemory>
    ensures { IfOk result (λ l. l ≡ line ++ shown_text (step_text step.now)) }
{
    let line = line.text("/")?;
    match step {
        PathStep::Key(name) => with_name(line, name.as_str().as_bytes()),
        PathStep::Index(index) => line.decimal(*index),
    }
}

fn with_steps(line: Line, steps: &[PathStep]) -> Result<Line, OutOfMemory>
    ensures { IfOk result (λ l. l ≡ line ++ shown_text (flat_map step_text steps.now)) }
{
    let mut line = line;
    for step in steps {
        line = with_step(line, step)?;
    }
    Ok(line)
}

/// The line, with the text of the path added, each byte as names are shown. The text is `#`, and for each step `/` and the key, or the
/// number of the item in decimal, as in `#/bench/target/words/3/value`. In a key `~` is `~0` and `/` is `~1`. `OutOfMemory` where memory is
/// refused; the line is then dropped.
pub fn with_path(line: Line, path: &Path) -> Result<Line, OutOfMemory>
    ensures { IfOk result (λ l. l ≡ line ++ shown_text (path_text path.now)) }
{
    let line = line.text("#")?;
    with_steps(line, path.as_slice())
}
