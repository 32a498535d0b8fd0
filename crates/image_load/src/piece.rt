//! The words and bytes in which an image is written.
ghost use Rattle.std.specs.Prelude.{◌≡◌, ◌≤◌, IfOk, IfSome, length};
ghost use Rattle.std.specs.List.{All};
ghost use Rattle.image_load.specs.Pieces.{IsPiece, byte_piece, leading_word, pieces};

use hex_image::Image;
use std::alloc::{AllocError, Global};

/// A word of four bytes, or one byte.
#[derive(Clone, Copy, Debug, PartialEq, Eq)]
pub(crate) struct WordOrByte {
    /// 4 or 1.
    pub size: u8,
    /// A multiple of the size.
    pub address: u32,
    /// The byte at the address in the low byte, the next one after it.
    pub value: u32,
}

/// A byte that was read as another one.
#[derive(Clone, Copy, Debug, PartialEq, Eq)]
pub(crate) struct Difference {
    pub address: u32,
    pub wanted: u8,
    pub found: u8,
}

// One byte of an image.
fn byte_piece(byte: (u32, u8)) -> WordOrByte
    ensures answer { result ≡ byte_piece byte }
    ensures sound { IsPiece result }
{
    WordOrByte {
        size: 1,
        address: byte.0,
        value: u32::from(byte.1),
    }
}

// The word with which bytes begin, where their first four are those of a word.
fn word_at(bytes: &[(u32, u8)]) -> Option<WordOrByte>
    ensures answer { result ≡ leading_word bytes.now }
    ensures sound { IfSome result IsPiece }
{
    match bytes {
        [a, b, c, d, ..] if a.0 % 4 == 0 && b.0 == a.0 + 1 && c.0 == a.0 + 2 && d.0 == a.0 + 3 => {
            Some(WordOrByte {
                size: 4,
                address: a.0,
                value: u32::from_le_bytes([a.1, b.1, c.1, d.1]),
            })
        }
        _ => None,
    }
}

// The bytes of an image, each with its address.
fn bytes_of(alloc: Global, image: &Image) -> Result<Vec<(u32, u8)>, AllocError>
    ensures bytes { IfOk result (λ bytes. bytes.items ≡ image.now) }
    ensures few { length image.now ≤ 262144 }
{
    let mut bytes = Vec::with_capacity(alloc, image.bytes().len())?;
    for (address, byte) in image.bytes() {
        bytes.push((*address, *byte))?;
    }
    Ok(bytes)
}

// The pieces of bytes.
fn pieces_in(alloc: Global, bytes: &[(u32, u8)]) -> Result<Vec<WordOrByte>, AllocError>
    ensures answer { IfOk result (λ ps. ps.items ≡ pieces bytes.now) }
    ensures sound { IfOk result (λ ps. All IsPiece ps.items) }
    ensures few { IfOk result (λ ps. length ps.items ≤ length bytes.now) }
{
    let mut made = Vec::new(alloc);
    let mut left = bytes;
    while let Some((first, more)) = left.split_first() {
        match word_at(left) {
            Some(word) => {
                made.push(word)?;
                left = &left[4..];
            }
            None => {
                made.push(byte_piece(*first))?;
                left = more;
            }
        }
    }
    Ok(made)
}

/// The pieces of an image, in rising order.
pub(crate) fn pieces_of(alloc: Global, image: &Image) -> Result<Vec<WordOrByte>, AllocError>
    ensures answer { IfOk result (λ ps. ps.items ≡ pieces image.now) }
    ensures sound { IfOk result (λ ps. All IsPiece ps.items) }
    ensures few { IfOk result (λ ps. length ps.items ≤ length image.now) }
    ensures most { IfOk result (λ ps. length ps.items ≤ 262144) }
{
    let bytes = bytes_of(alloc, image)?;
    pieces_in(alloc, &bytes)
}
