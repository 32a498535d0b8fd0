//! The lines that sequences write: `Message`, `Query`, `QueryValue` and `LoadDebugInfo`.

ghost use Rattle.std.specs.Prelude.{◌≡◌, ◌++◌, length, map, IfOk, OnOk, string_bytes};
ghost use Rattle.sequence_rules.specs.Lines as spec;

use dap_base::OutOfMemory;
use function_table::{Conversion, FormatPiece, NumberForm, front_piece};
use std::alloc::Global;
use text_lines::Line;

// The digits of a number, without leading zeros.
fn digits_of(alloc: Global, form: NumberForm, number: u64) -> Result<String, OutOfMemory>
    ensures { IfOk result (λ digits. string_bytes digits ≡ spec.digits_of form number) }
{
    let digits = match form {
        NumberForm::Decimal => format!(in alloc; "{number}"),
        NumberForm::LowerHex => format!(in alloc; "{number:x}"),
        NumberForm::UpperHex => format!(in alloc; "{number:X}"),
    };
    match digits {
        Ok(digits) => Ok(digits),
        Err(_) => Err(OutOfMemory),
    }
}

// Digits, filled on the left to the width.
fn push_filled(out: &mut Vec<u8>, fill: u8, width: usize, digits: &[u8]) -> Result<(), OutOfMemory>
    ensures { OnOk result (out.new.items ≡ out.old.items ++ spec.filled_digits fill width digits.now) }
{
    let mut length = digits.len();
    while length < width {
        if out.push(fill).is_err() {
            return Err(OutOfMemory);
        }
        length += 1;
    }
    match out.extend_from_slice(digits) {
        Ok(()) => Ok(()),
        Err(_) => Err(OutOfMemory),
    }
}

// What a piece of a format is written as, where this is the next number.
fn push_piece(
    alloc: Global,
    out: &mut Vec<u8>,
    piece: FormatPiece,
    number: u64,
) -> Result<(), OutOfMemory>
    ensures { OnOk result (out.new.items ≡ out.old.items ++ spec.piece_shown piece number) }
{
    match piece {
        FormatPiece::Plain(byte) => out.push(byte).map_err(|_| OutOfMemory),
        FormatPiece::Percent => out.push(b'%').map_err(|_| OutOfMemory),
        FormatPiece::Conversion(conversion) => push_conversion(alloc, out, conversion, number),
    }
}

// The number as a conversion writes it.
fn push_conversion(
    alloc: Global,
    out: &mut Vec<u8>,
    conversion: Conversion,
    number: u64,
) -> Result<(), OutOfMemory>
    ensures { OnOk result (out.new.items ≡ out.old.items ++ spec.converted_number conversion number) }
{
    let digits = digits_of(alloc, conversion.form, number)?;
    let fill = if conversion.zero { b'0' } else { b' ' };
    push_filled(out, fill, usize::from(conversion.width), digits.as_bytes())
}

// A format with numbers for its conversions, up to a `%` that begins no piece.
#[tactic(auto, unfolding(crate::specs::Lines::formatted_text))]
fn format_message(alloc: Global, format: &str, numbers: &[u64]) -> Result<Vec<u8>, OutOfMemory>
    ensures { IfOk result (λ out. out.items ≡ spec.formatted_text (length format.now) format.now numbers.now) }
{
    let mut out = Vec::new(alloc);
    let mut rest = format.as_bytes();
    let mut numbers = numbers;
    let mut left = rest.len();
    while left > 0 {
        let Some((piece, after)) = front_piece(rest) else {
            return Ok(out);
        };
        push_piece(alloc, &mut out, piece, first_of(numbers))?;
        numbers = numbers_after(piece, numbers);
        rest = after;
        left -= 1;
    }
    Ok(out)
}

// The first number, 0 where there is none.
fn first_of(numbers: &[u64]) -> u64
    ensures { result ≡ spec.first_number numbers.now }
{
    match numbers.first() {
        Some(number) => *number,
        None => 0,
    }
}

// The numbers that are left after the piece.
fn numbers_after(piece: FormatPiece, numbers: &[u64]) -> &[u64]
    ensures { result.now ≡ spec.piece_rest piece numbers.now }
{
    match (piece, numbers) {
        (FormatPiece::Conversion(_), [_, more @ ..]) => more,
        _ => numbers,
    }
}

/// The line of `Message`, `message KIND TEXT`: the kind in decimal, and the format with numbers for its conversions, as far as
/// it is one, each byte shown as in all lines. A missing number is 0. `OutOfMemory` where memory is refused.
#[tactic(auto, unfolding(crate::specs::Lines::message_line))]
pub fn message_line(
    alloc: Global,
    kind: u64,
    format: &str,
    numbers: &[u64],
) -> Result<Line, OutOfMemory>
    ensures { IfOk result (λ line. line ≡ spec.message_line kind format.now numbers.now) }
{
    let text = format_message(alloc, format, numbers)?;
    Line::begin(alloc, "message ")?
        .decimal(kind)?
        .text(" ")?
        .add_shown(&text)?
        .text("\n")
}

/// The line of `Query`, `query KIND TEXT = N`. `OutOfMemory` where memory is refused.
#[tactic(auto, unfolding(crate::specs::Lines::query_line))]
pub fn query_line(alloc: Global, kind: u64, text: &str, default: u64) -> Result<Line, OutOfMemory>
    ensures { IfOk result (λ line. line ≡ spec.query_line kind text.now default) }
{
    Line::begin(alloc, "query ")?
        .decimal(kind)?
        .text(" ")?
        .add_shown(text.as_bytes())?
        .text(" = ")?
        .decimal(default)?
        .text("\n")
}

/// The line of `QueryValue`, `value TEXT = N`. `OutOfMemory` where memory is refused.
#[tactic(auto, unfolding(crate::specs::Lines::value_line))]
pub fn value_line(alloc: Global, text: &str, default: u64) -> Result<Line, OutOfMemory>
    ensures { IfOk result (λ line. line ≡ spec.value_line text.now default) }
{
    Line::begin(alloc, "value ")?
        .add_shown(text.as_bytes())?
        .text(" = ")?
        .decimal(default)?
        .text("\n")
}

/// The line of `LoadDebugInfo`, `load TEXT`. `OutOfMemory` where memory is refused.
#[tactic(auto, unfolding(crate::specs::Lines::load_line))]
pub fn load_line(alloc: Global, text: &str) -> Result<Line, OutOfMemory>
    ensures { IfOk result (λ line. line ≡ spec.load_line text.now) }
{
    Line::begin(alloc, "load ")?
        .add_shown(text.as_bytes())?
        .text("\n")
}
