//! Bytes by their hexadecimal digits.

use crate::RowError;
use std::alloc::{AllocError, Global};

// A byte by its two hexadecimal digits.
fn byte_of(digits: &str) -> Result<u8, RowError> {
    if digits.len() != 2 {
        return Err(RowError::Unreadable);
    }
    u8::from_str_radix(digits, 16).map_err(|_| RowError::Unreadable)
}

// Adds a byte so often.
fn push_times(bytes: &mut Vec<u8>, byte: u8, times: u16) -> Result<(), RowError> {
    for _ in 0..times {
        bytes.push(byte)?;
    }
    Ok(())
}

/// The bytes of a text: two hexadecimal digits each, with spaces between them. `00*12` stands for twelve bytes 00.
pub fn bytes_of(alloc: Global, text: &str) -> Result<Vec<u8>, RowError> {
    let mut bytes = Vec::new(alloc);
    for word in text.split_whitespace() {
        match word.split_once("*") {
            None => bytes.push(byte_of(word)?)?,
            Some((byte, times)) => {
                let times = times.parse::<u16>().map_err(|_| RowError::Unreadable)?;
                push_times(&mut bytes, byte_of(byte)?, times)?;
            }
        }
    }
    Ok(bytes)
}

/// Writes bytes by their digits, a space between them.
pub fn put_bytes(text: &mut String, bytes: &[u8]) -> Result<(), AllocError> {
    for (index, byte) in bytes.iter().enumerate() {
        if index != 0 {
            text.push_str(" ")?;
        }
        write!(text, "{byte:02X}")?;
    }
    Ok(())
}
