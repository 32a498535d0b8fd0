//! A text of Intel HEX records, read line by line.
ghost use Rattle.std.specs.Prelude.{◌≡◌, ◌+◌, ◌*◌, ◌^◌, ◌≤◌, true, Ok, Some, length, sum, OnOk, IfErr};
ghost use Rattle.hex_image.specs.Image.{at_end, at_start, by_type, image, image_with_bytes, where_length, with_base, with_data, with_end, with_line};
ghost use Rattle.hex_image.specs.Image.{with_record, with_content};
ghost use Rattle.hex_image.specs.Reads.{IsFault, IsImage, IsRead};
ghost use Rattle.hex_image.specs.Records.{count_of, type_of, front_word};

use crate::fault::{ImageFault, ImageKind};
use crate::image::Image;
use crate::line::{record_of, without_return};
use std::alloc::Global;
use std::collections::BTreeMap;
use std::marker::Model;

// What was read so far.
#[derive(Drop)]
pub(crate) struct HexReader {
    image: BTreeMap<u32, u8>,
    base: u32,
    is_ended: bool,
}

impl Model for HexReader {
    ghost use Rattle.std.specs.Prelude.{◌≤◌};
    ghost use Rattle.hex_image.specs.Image.{Reading};

    ghost Value = { Reading };

    ghost view = { λ r. record { image = r.image.entries; base = r.base; is_ended = r.is_ended } };

    ghost invariant = { λ r. r.base ≤ 0xFFFF_0000 };
}

// Why a line is not read.
#[derive(Clone, Copy, Debug, PartialEq, Eq)]
pub(crate) enum LineFault {
    Kind(ImageKind),
    OutOfMemory,
}

// Places bytes from an address on, each of which replaces the one that was there.
fn place(image: &mut BTreeMap<u32, u8>, address: u32, bytes: &[u8]) -> Result<(), LineFault>
    requires { address + length bytes.now ≤ 2 ^ 32 }
    ensures placed { OnOk result (image.new.entries ≡ image_with_bytes address bytes.now image.old.entries) }
    ensures memory { IfErr result (λ e. e ≡ LineFault.OutOfMemory) }
{
    for i in 0..bytes.len() {
        match image.insert(address + i as u32, bytes[i]) {
            Ok(_) => {}
            Err(_) => return Err(LineFault::OutOfMemory),
        }
    }
    Ok(())
}

impl HexReader {
    // Nothing was read yet.
    fn start(alloc: Global) -> HexReader
        ensures { result ≡ at_start }
    {
        HexReader {
            image: BTreeMap::new(alloc),
            base: 0,
            is_ended: false,
        }
    }

    // Reads a record of data. All of it is placed before the bytes of the image are counted.
    fn read_data(&mut self, bytes: &[u8]) -> Result<(), LineFault>
        requires { length bytes.now ≡ count_of bytes.now + 5 }
        ensures { IsRead result (with_data self.old bytes.now) self.new }
    {
        let address = bytes[1] as u32 * 256 + bytes[2] as u32;
        let count = bytes[0] as u32;
        if address + count > 65536 {
            return Err(LineFault::Kind(ImageKind::BadLength));
        }
        place(
            &mut self.image,
            self.base + address,
            &bytes[4..bytes.len() - 1],
        )?;
        if self.image.len() > 262_144 {
            return Err(LineFault::Kind(ImageKind::TooMany));
        }
        Ok(())
    }

    // Reads a record that sets the base to so many times its word.
    fn read_base(&mut self, bytes: &[u8], times: u32) -> Result<(), LineFault>
        requires count { length bytes.now ≡ count_of bytes.now + 5 }
        requires times { times ≤ 65536 }
        ensures { IsRead result (where_length 2 bytes.now (with_base self.old (front_word bytes.now * times))) self.new }
    {
        if bytes[0] != 2 {
            return Err(LineFault::Kind(ImageKind::BadLength));
        }
        self.base = (bytes[4] as u32 * 256 + bytes[5] as u32) * times;
        Ok(())
    }

    // Reads an end-of-file record.
    fn read_end(&mut self, bytes: &[u8]) -> Result<(), LineFault>
        requires { length bytes.now ≡ count_of bytes.now + 5 }
        ensures { IsRead result (where_length 0 bytes.now (with_end self.old)) self.new }
    {
        if bytes[0] != 0 {
            return Err(LineFault::Kind(ImageKind::BadLength));
        }
        self.is_ended = true;
        Ok(())
    }

    // Reads a record of a start address, which changes nothing.
    fn read_start(&mut self, bytes: &[u8]) -> Result<(), LineFault>
        requires { length bytes.now ≡ count_of bytes.now + 5 }
        ensures { IsRead result (where_length 4 bytes.now (Ok self.old)) self.new }
    {
        if bytes[0] != 4 {
            return Err(LineFault::Kind(ImageKind::BadLength));
        }
        Ok(())
    }

    // Reads a record by its type.
    fn read_type(&mut self, bytes: &[u8]) -> Result<(), LineFault>
        requires { length bytes.now ≡ count_of bytes.now + 5 }
        ensures { IsRead result (by_type self.old bytes.now (type_of bytes.now)) self.new }
    {
        match bytes[3] {
            0 => self.read_data(bytes),
            1 => self.read_end(bytes),
            2 => self.read_base(bytes, 16),
            3 | 5 => self.read_start(bytes),
            4 => self.read_base(bytes, 65536),
            _ => Err(LineFault::Kind(ImageKind::BadKind)),
        }
    }

    // Reads a record, whose bytes have to have the sum 0.
    fn read_record(&mut self, bytes: &[u8]) -> Result<(), LineFault>
        requires count { length bytes.now ≡ count_of bytes.now + 5 }
        requires few { length bytes.now ≤ 260 }
        ensures { IsRead result (with_record self.old (Some bytes.now)) self.new }
    {
        if sum_of(bytes) % 256 != 0 {
            return Err(LineFault::Kind(ImageKind::BadSum));
        }
        self.read_type(bytes)
    }

    // Reads the content of a line that is not empty.
    fn read_content(&mut self, line: &[u8]) -> Result<(), LineFault>
        ensures { IsRead result (with_content self.old line.now) self.new }
    {
        if self.is_ended {
            return Err(LineFault::Kind(ImageKind::AfterEnd));
        }
        let mut room = [0u8; 260];
        match record_of(line, &mut room) {
            Some(length) => self.read_record(&room[..length]),
            None => Err(LineFault::Kind(ImageKind::BadRecord)),
        }
    }

    // Reads the content of a line. An empty one changes nothing.
    fn read_line(&mut self, line: &[u8]) -> Result<(), LineFault>
        ensures { IsRead result (with_line self.old line.now) self.new }
    {
        if line.is_empty() {
            Ok(())
        } else {
            self.read_content(line)
        }
    }
}

// The sum of the bytes of a record.
fn sum_of(bytes: &[u8]) -> u32
    requires { length bytes.now ≤ 260 }
    ensures { result ≡ sum bytes.now }
{
    let mut sum: u32 = 0;
    for byte in bytes {
        sum += *byte as u32;
    }
    sum
}

// The fault of a line, with its number.
fn fault_at(fault: LineFault, line: u64) -> ImageFault
    ensures { IsFault fault line result }
{
    match fault {
        LineFault::Kind(kind) => ImageFault::Fault(kind, line),
        LineFault::OutOfMemory => ImageFault::OutOfMemory,
    }
}

// The image that was read, after so many lines.
fn end_reading(reader: HexReader, lines: u64) -> Result<Image, ImageFault>
    requires { reader.is_ended ≡ true → length reader.image ≤ 262144 }
    ensures { IsImage result (at_end reader lines) }
{
    if reader.is_ended {
        Ok(Image {
            bytes: reader.image,
        })
    } else {
        Err(ImageFault::Fault(ImageKind::NoEnd, lines))
    }
}

/// The image of a text of Intel HEX records, read in one pass. A later record replaces the bytes of an earlier one at the same addresses.
/// The base of addresses is 0 at the start.
///
/// A line feed ends a line, and a carriage return directly before it is no part of the line. Empty lines are skipped, and counted. After the
/// last line feed there is a line only where there are bytes.
///
/// # Errors
///
/// `Fault` at the first line that has a fault, with the first fault of that line in the order of [`ImageKind`]. `NoEnd` comes only where no line
/// has a fault, with the number of lines. `OutOfMemory` where memory is refused.
pub fn image_of(alloc: Global, text: &str) -> Result<Image, ImageFault>
    ensures { IsImage result (image text.now) }
{
    let bytes = text.as_bytes();
    let mut reader = HexReader::start(alloc);
    let mut lines: u64 = 0;
    let mut start = 0;
    for end in 0..bytes.len() {
        if bytes[end] == b'\n' {
            lines += 1;
            match reader.read_line(without_return(&bytes[start..end])) {
                Ok(()) => {}
                Err(fault) => return Err(fault_at(fault, lines)),
            }
            start = end + 1;
        }
    }
    if start < bytes.len() {
        lines += 1;
        match reader.read_line(&bytes[start..]) {
            Ok(()) => {}
            Err(fault) => return Err(fault_at(fault, lines)),
        }
    }
    end_reading(reader, lines)
}
