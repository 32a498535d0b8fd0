//! The lines of a trace that are packets and replies.
ghost use Rattle.std.specs.Prelude.{◌≡◌, IfOk};
ghost use Rattle.std.specs.Option.{option_map};
ghost use Rattle.trace_events.specs.Entries.{bytes_of_digits, entry_in};
ghost use Rattle.hex.specs.Hex.{decode_of};

use crate::bytes::PacketBytes;
use dap_base::OutOfMemory;
use hex::{FromHexError, decode};
use std::alloc::Global;

// A packet, or a reply.
#[derive(Drop)]
pub struct PacketOrReply {
    pub is_reply: bool,
    pub bytes: PacketBytes,
}

// The bytes of digits, where they are an even number of hexadecimal digits.
fn bytes_in(
    alloc: Global,
    is_reply: bool,
    digits: &[u8],
) -> Result<Option<PacketOrReply>, OutOfMemory>
    ensures { IfOk result (λ found. option_map (λ e. (e.is_reply, e.bytes)) found ≡ bytes_of_digits is_reply (decode_of digits.now)) }
{
    match decode(alloc, digits) {
        Ok(bytes) => Ok(Some(PacketOrReply {
            is_reply,
            bytes: PacketBytes::of(bytes),
        })),
        Err(FromHexError::OutOfMemory) => Err(OutOfMemory),
        Err(_) => Ok(None),
    }
}

// The packet or the reply that a line is: `> ` or `< `, and then an even number of hexadecimal digits of either
// case. `None` exactly where it is neither.
pub fn entry_in(alloc: Global, line: &[u8]) -> Result<Option<PacketOrReply>, OutOfMemory>
    ensures { IfOk result (λ found. option_map (λ e. (e.is_reply, e.bytes)) found ≡ entry_in line.now) }
{
    match line {
        [b'>', b' ', digits @ ..] => bytes_in(alloc, false, digits),
        [b'<', b' ', digits @ ..] => bytes_in(alloc, true, digits),
        _ => Ok(None),
    }
}
