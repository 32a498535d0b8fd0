//! Lines of each kind of piece.
use crate::texts::{no_memory, numbers_of};
use dap_base::{OutOfMemory, number};
use std::alloc::{AllocError, Global};
use text_lines::Line;

// The number that a word is; 0 where it is none.
fn number_in(word: &str) -> u64 {
    number(word).unwrap_or(0)
}

// The low byte of each number.
fn bytes_of(alloc: Global, text: &str) -> Result<Vec<u8>, OutOfMemory> {
    let mut bytes = Vec::new(alloc);
    for number in numbers_of(alloc, text)?.as_slice() {
        let byte = (*number & 0xFF) as u8;
        if bytes.push(byte).is_err() {
            return Err(OutOfMemory);
        }
    }
    Ok(bytes)
}

// A label, and after the last space a number.
fn label_line(line: Line, argument: &str) -> Result<Line, OutOfMemory> {
    let (label, number) = argument.rsplit_once(' ').unwrap_or((argument, ""));
    line.add_labelled(label, number_in(number))
}

// The line with one piece more: its kind, and after a space its argument.
fn with_piece(alloc: Global, line: Line, piece: &str) -> Result<Line, OutOfMemory> {
    let (kind, argument) = piece.split_once(' ').unwrap_or((piece, ""));
    let number = number_in(argument);
    match kind {
        "text" => line.text(argument),
        "shown" => line.add_shown(bytes_of(alloc, argument)?.as_slice()),
        "decimal" => line.decimal(number),
        "labelled" => label_line(line, argument),
        "dotted" => line.add_dotted(numbers_of(alloc, argument)?.as_slice()),
        "hex2" => line.hex2((number & 0xFF) as u8),
        "hex8" => line.hex8((number & 0xFFFF_FFFF) as u32),
        "hex16" => line.hex16(number),
        "hex" => line.hex(alloc, number),
        _ => line.text("there is no such piece"),
    }
}

fn line_of(alloc: Global, text: &str) -> Result<Line, OutOfMemory> {
    let (begun, pieces) = text.split_once('|').unwrap_or((text, ""));
    let mut line = Line::begin(alloc, begun)?;
    for piece in pieces.split('|') {
        line = with_piece(alloc, line, piece)?;
    }
    Ok(line)
}

/// The line of these pieces, between `|`: what it begins with, and then for each what kind of piece it is, and its argument.
pub(crate) fn line_text(alloc: Global, text: &str) -> Result<String, AllocError> {
    let line = line_of(alloc, text).map_err(no_memory)?;
    match str::from_utf8(line.as_bytes()) {
        Ok(text) => String::from_str(alloc, text),
        Err(_) => String::from_str(alloc, "the line is no text"),
    }
}
