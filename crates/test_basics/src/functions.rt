//! Functions of the sequence language, and formats of messages.
use dap_base::number;
use function_table::{
    Conversion, FormatPiece, Function, NumberForm, ParameterKind, ResultKind, conversions,
    front_piece, function_of,
};
use std::alloc::{AllocError, Global};

fn none(alloc: Global) -> Result<String, AllocError> {
    String::from_str(alloc, "none")
}

/// The name of the function of a name, and the number of its arguments.
pub(crate) fn function_text(alloc: Global, name: &str) -> Result<String, AllocError> {
    let Some(function) = function_of(name) else {
        return none(alloc);
    };
    let found = function.name();
    let count = function.parameters().len();
    format!(in alloc; "{found} {count}")
}

/// What a call of a function gives.
pub(crate) fn result_text(alloc: Global, name: &str) -> Result<String, AllocError> {
    let Some(function) = function_of(name) else {
        return none(alloc);
    };
    let text = match function.result() {
        ResultKind::Value => "the value",
        ResultKind::Zero => "0",
        ResultKind::PinByte => "the pins",
        ResultKind::Default => "the last argument",
        ResultKind::HaltsUnsupported => "halts",
    };
    String::from_str(alloc, text)
}

// The function of a name, and the number after it.
fn function_and_number(text: &str) -> Option<(Function, usize)> {
    let (name, count) = text.split_once(' ')?;
    let count = usize::try_from(number(count)?).ok()?;
    Some((function_of(name)?, count))
}

/// Whether further numbers may follow the arguments of a function, and whether it takes this many.
pub(crate) fn takes_text(alloc: Global, text: &str) -> Result<String, AllocError> {
    let Some((function, count)) = function_and_number(text) else {
        return none(alloc);
    };
    let more = if function.has_more() {
        "more"
    } else {
        "no more"
    };
    let takes = if function.takes(count) { "yes" } else { "no" };
    format!(in alloc; "{more}, {takes}")
}

/// The kind of the argument at an index.
pub(crate) fn kind_text(alloc: Global, text: &str) -> Result<String, AllocError> {
    let Some((function, index)) = function_and_number(text) else {
        return none(alloc);
    };
    match function.kind_at(index) {
        Some(ParameterKind::Number) => String::from_str(alloc, "number"),
        Some(ParameterKind::Text) => String::from_str(alloc, "text"),
        None => none(alloc),
    }
}

/// The number of conversions of a format.
pub(crate) fn conversions_text(alloc: Global, format: &str) -> Result<String, AllocError> {
    match conversions(format) {
        Some(count) => format!(in alloc; "{count}"),
        None => none(alloc),
    }
}

fn conversion_text(alloc: Global, conversion: Conversion) -> Result<String, AllocError> {
    let Conversion { zero, width, form } = conversion;
    let fill = if zero { "zeros" } else { "spaces" };
    let form = match form {
        NumberForm::Decimal => "decimal",
        NumberForm::LowerHex => "lower hex",
        NumberForm::UpperHex => "upper hex",
    };
    format!(in alloc; "{form} filled with {fill} to {width}")
}

fn piece_text(alloc: Global, piece: FormatPiece) -> Result<String, AllocError> {
    match piece {
        FormatPiece::Plain(byte) => format!(in alloc; "byte {byte}"),
        FormatPiece::Percent => String::from_str(alloc, "percent"),
        FormatPiece::Conversion(conversion) => conversion_text(alloc, conversion),
    }
}

/// The piece at the front of a format, and how many bytes are after it.
pub(crate) fn front_text(alloc: Global, format: &str) -> Result<String, AllocError> {
    let Some((piece, after)) = front_piece(format.as_bytes()) else {
        return none(alloc);
    };
    let piece = piece_text(alloc, piece)?;
    let after = str::from_utf8(after).unwrap_or("no text");
    format!(in alloc; "{piece}, then {after}")
}
