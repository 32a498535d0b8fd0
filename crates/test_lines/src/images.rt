//! What the texts of images mean.
use hex_image::{Image, ImageFault, image_of};
use std::alloc::{AllocError, Global};

fn count_text(alloc: Global, image: &Image) -> Result<String, AllocError> {
    let count = image.bytes().len();
    format!(in alloc; "{count} bytes")
}

// The number of bytes of an image, and each byte with its address.
fn bytes_text(alloc: Global, image: &Image) -> Result<String, AllocError> {
    let mut text = count_text(alloc, image)?;
    for (address, byte) in image.bytes() {
        text.push_str(&format!(in alloc; " {address:#x}={byte:#x}")?)?;
    }
    Ok(text)
}

fn fault_text(alloc: Global, fault: ImageFault) -> Result<String, AllocError> {
    match fault {
        ImageFault::Fault(kind, line) => format!(in alloc; "{kind:?} {line}"),
        ImageFault::OutOfMemory => Err(AllocError),
    }
}

fn end_line(mut text: String) -> Result<Vec<u8>, AllocError> {
    text.push_str("\n")?;
    Ok(text.into_bytes())
}

/// The image of a text, or its first fault.
pub fn image(alloc: Global, bytes: &[u8]) -> Result<Vec<u8>, AllocError> {
    let Ok(text) = std::str::from_utf8(bytes) else {
        return Err(AllocError);
    };
    match image_of(alloc, text) {
        Ok(image) => end_line(bytes_text(alloc, &image)?),
        Err(fault) => end_line(fault_text(alloc, fault)?),
    }
}

// The byte that makes the sum of a record 0 modulo 256.
fn checksum(sum: u32) -> u32 {
    (256 - sum % 256) % 256
}

fn push_base(alloc: Global, text: &mut String, word: u32) -> Result<(), AllocError> {
    let check = checksum(2 + 4 + word % 256 + word / 256 % 256);
    text.push_str(&format!(in alloc; ":02000004{word:04X}{check:02X}\n")?)
}

fn push_zeros(text: &mut String, count: u32) -> Result<(), AllocError> {
    for _ in 0..count {
        text.push_str("00")?;
    }
    Ok(())
}

// A record of zeros at an address, and the base before it where the address is the first one of its base.
fn push_record(
    alloc: Global,
    text: &mut String,
    address: u32,
    count: u32,
) -> Result<(), AllocError> {
    let offset = address % 65_536;
    if offset == 0 {
        push_base(alloc, text, address / 65_536)?;
    }
    let check = checksum(count % 256 + offset % 256 + offset / 256);
    text.push_str(&format!(in alloc; ":{count:02X}{offset:04X}00")?)?;
    push_zeros(text, count)?;
    text.push_str(&format!(in alloc; "{check:02X}\n")?)
}

// A text whose image has so many bytes, all of them 0, from address 0 on.
fn filled_text(alloc: Global, count: u32) -> Result<String, AllocError> {
    let mut text = String::new(alloc);
    let whole = count / 16;
    for i in 0..whole {
        push_record(alloc, &mut text, i * 16, 16)?;
    }
    if count % 16 > 0 {
        push_record(alloc, &mut text, whole * 16, count % 16)?;
    }
    text.push_str(":00000001FF")?;
    Ok(text)
}

/// The number of bytes of the image of so many bytes, or the first fault of its text.
pub fn fill_image(alloc: Global, bytes: &[u8]) -> Result<Vec<u8>, AllocError> {
    let count = std::str::from_utf8(bytes).map_or(0, |text| text.parse::<u32>().unwrap_or(0));
    let text = filled_text(alloc, count)?;
    match image_of(alloc, text.as_str()) {
        Ok(image) => end_line(count_text(alloc, &image)?),
        Err(fault) => end_line(fault_text(alloc, fault)?),
    }
}
