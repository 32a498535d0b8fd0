//! Escapes in the texts of a table.
ghost use Rattle.std.specs.Prelude.{◌<◌};

use std::alloc::{AllocError, Global};

// What the next byte of a text belongs to.
#[derive(Clone, Copy)]
enum State {
    // The text itself.
    Text,
    // The letter after a backslash.
    Letter,
    // The first digit after `\x`.
    High,
    // The second one, after this first one.
    Low(u8),
    // The digits of a count after `\*`, which have this value.
    Count(u32),
    // A text that comes so many times, and from where on it stands.
    Part(u32, usize),
}

// The value of a hexadecimal digit, 0 of any other byte.
fn digit(byte: u8) -> u8
    ensures { result < 16 }
{
    match byte {
        b'0'..=b'9' => byte - b'0',
        b'a'..=b'f' => byte - b'a' + 10,
        b'A'..=b'F' => byte - b'A' + 10,
        _ => 0,
    }
}

/// The bytes that a text of a table stands for. `\n`, `\r` and `\t` are a line feed, a carriage return and a tab. `\xHH` is the byte with
/// these two hexadecimal digits, and `\*COUNT<TEXT>` is the text so many times, once at least. A backslash before any other character
/// stands for that character.
///
/// An error where memory is refused.
pub fn unescape(alloc: Global, text: &str) -> Result<Vec<u8>, AllocError> {
    let mut bytes = Vec::new(alloc);
    let mut state = State::Text;
    for byte in text.as_bytes().iter().copied() {
        state = match (state, byte) {
            (State::Text, b'\\') => State::Letter,
            (State::Letter, b'x') => State::High,
            (State::Letter, b'*') => State::Count(0),
            (State::Count(count), b'<') => State::Part(count, bytes.len()),
            (State::Count(count), _) => State::Count(with_digit(count, byte)),
            (State::Part(count, start), b'>') => repeat(alloc, &mut bytes, count, start)?,
            (State::High, _) => State::Low(digit(byte)),
            (State::Text, _) => put(&mut bytes, byte)?,
            (State::Letter, b'n') => put(&mut bytes, b'\n')?,
            (State::Letter, b'r') => put(&mut bytes, b'\r')?,
            (State::Letter, b't') => put(&mut bytes, b'\t')?,
            (State::Letter, _) => put(&mut bytes, byte)?,
            (State::Low(high), _) => put(&mut bytes, (high << 4) | digit(byte))?,
            (State::Part(..), _) => {
                bytes.push(byte)?;
                state
            }
        };
    }
    Ok(bytes)
}

// Adds a byte, after which the text goes on.
fn put(bytes: &mut Vec<u8>, byte: u8) -> Result<State, AllocError> {
    bytes.push(byte)?;
    Ok(State::Text)
}

// A decimal number with one more digit.
fn with_digit(number: u32, byte: u8) -> u32 {
    number
        .saturating_mul(10)
        .saturating_add(u32::from(digit(byte)))
}

// Adds what stands from `start` on again, so that it is there `count` times, after which the text goes on.
fn repeat(
    alloc: Global,
    bytes: &mut Vec<u8>,
    count: u32,
    start: usize,
) -> Result<State, AllocError> {
    let part = match bytes.get(start..) {
        Some(part) => Vec::from_slice(alloc, part)?,
        None => Vec::new(alloc),
    };
    for _ in 1..count {
        bytes.extend_from_slice(part.as_slice())?;
    }
    Ok(State::Text)
}
