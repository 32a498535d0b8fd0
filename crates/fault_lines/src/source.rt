//! The line in which a fault is, and the caret below its place.
ghost use Rattle.std.specs.Prelude.{◌≡◌, ◌++◌, ◌-◌, codes, map, take, IfOk, OnOk};
ghost use Rattle.std.specs.List.{flat_map};
ghost use Rattle.std.specs.Str.Lines.{strip_carriage_return};
ghost use Rattle.fault_lines.specs.Source as source;
ghost use Rattle.fault_lines.specs.Source.{line_byte, below};

use dap_base::OutOfMemory;
use std::alloc::Global;

pub fn push(text: &mut Vec<u8>, bytes: &[u8]) -> Result<(), OutOfMemory>
    ensures { OnOk result (text.new.items ≡ text.old.items ++ bytes.now) }
{
    text.extend_from_slice(bytes).map_err(|_| OutOfMemory)
}

// A byte of the line as it is shown.
fn line_byte(byte: u8) -> u8
    ensures { result ≡ line_byte byte }
{
    match byte {
        b'\t' => byte,
        0..=0x1f | 0x7f => b'?',
        _ => byte,
    }
}

// The line without a carriage return at its end.
fn without_return(line: &[u8]) -> &[u8]
    ensures { result.now ≡ strip_carriage_return line.now }
{
    match line {
        [front @ .., b'\r'] => front,
        _ => line,
    }
}

fn push_line(text: &mut Vec<u8>, line: &[u8]) -> Result<(), OutOfMemory>
    ensures { OnOk result (text.new.items ≡ text.old.items ++ map line_byte line.now) }
{
    for byte in line {
        text.push(line_byte(*byte)).map_err(|_| OutOfMemory)?;
    }
    Ok(())
}

// What stands below a byte before the place.
fn caret_byte(byte: u8) -> &'static [u8]
    ensures { result.now ≡ below byte }
{
    match byte {
        b'\t' => b"\t",
        0x80..=0xbf => b"",
        _ => b" ",
    }
}

fn push_below(text: &mut Vec<u8>, before: &[u8]) -> Result<(), OutOfMemory>
    ensures { OnOk result (text.new.items ≡ text.old.items ++ flat_map below before.now) }
{
    for byte in before {
        push(text, caret_byte(*byte))?;
    }
    Ok(())
}

// What stands in the line before this column.
fn before_column(line: &[u8], column: u64) -> &[u8]
    ensures { result.now ≡ take (column - 1) line.now }
{
    line.get(..column.saturating_sub(1) as usize)
        .unwrap_or(line)
}

fn push_source(text: &mut Vec<u8>, line: &[u8]) -> Result<(), OutOfMemory>
    ensures { OnOk result (text.new.items ≡ text.old.items ++ source.source_line line.now) }
{
    push(text, b"    ")?;
    push_line(text, without_return(line))?;
    push(text, b"\n")
}

fn push_caret(text: &mut Vec<u8>, line: &[u8], column: u64) -> Result<(), OutOfMemory>
    ensures { OnOk result (text.new.items ≡ text.old.items ++ source.caret_line line.now column) }
{
    push(text, b"    ")?;
    push_below(text, before_column(line, column))?;
    push(text, b"^\n")
}

/// Four blanks and the line, and in a line below it a caret under the byte at this column, which is counted from
/// 1. A tab stays a tab in both; another control character of the line is shown as a question mark, and a carriage
/// return at its end is left out. `OutOfMemory` where memory is refused.
pub fn place_lines(alloc: Global, line: &[u8], column: u64) -> Result<Vec<u8>, OutOfMemory>
    ensures { IfOk result (λ text. text.items ≡ source.place_lines line.now column) }
{
    let mut text = Vec::new(alloc);
    push_source(&mut text, line)?;
    push_caret(&mut text, line, column)?;
    Ok(text)
}
