//! The words, the packets and the parts of a flight's accesses.
ghost use Rattle.std.specs.Prelude.{◌≡◌, ◌≤◌, ◌<◌, ◌+◌, ◌++◌, ◌∷◌, [], true, false, length, take};
ghost use Rattle.dap_messages.specs.declared.command_value.CommandValue.TheVariants.{Transfer};
ghost use Rattle.dap_messages.specs.Commands.{IsCommand, bytes_of_kind, command_bytes, command_value};
ghost use Rattle.flight_forms.specs.Flights.{words_of};
ghost use Rattle.flight_forms.specs.Forms.{parts_of};
ghost use Rattle.flight_forms.specs.Packets.{FitChain, FitsPacket, chain_packets, guarded_command};
ghost use Rattle.flight_forms.specs.Packing.{requests_for};
ghost use Rattle.batch_packer.specs.Alone.{one_command};
ghost use Rattle.batch_packer.specs.Queues.{IsFresh, last_id, last_kind};
ghost use Rattle.batch_packer.specs.Rooms.{AreBuffers, BeginsWith};

use dap_messages::{Command, Request, write_command};
use flight_forms::{first_part, put_guarded_requests};
use probe_core::PacketList;
use target_machine::RegAccess;

/// A request to fill a buffer with.
pub const UNUSED: Request = Request { byte: 0, word: 0 };

/// The most requests of a Transfer.
pub const MOST_REQUESTS: usize = 255;

// The request byte of a block of writes of DRW.
const WRITE_DRW: u8 = 0x0D;

// DAP_ExecuteCommands and DAP_QueueCommands.
const EXECUTE: u8 = 0x7F;

const QUEUE: u8 = 0x7E;

// Puts what these accesses write into the front of a buffer, and answers how many words they are.
fn put_words(accesses: &[RegAccess], words: &mut [u32]) -> usize
    requires { length accesses.now ≤ length words.old }
    ensures count { result ≡ length (words_of accesses.now) }
    ensures front { take result words.new ≡ words_of accesses.now }
{
    let mut count = 0;
    for access in accesses {
        words[count] = access.value;
        count += 1;
    }
    count
}

// Writes a block of these accesses into the front of a buffer, and answers how many bytes it has.
fn write_block(accesses: &[RegAccess], bytes: &mut [u8]) -> usize
    requires command { IsCommand (one_command true accesses.now) }
    requires fits { length (command_bytes (one_command true accesses.now)) ≤ length bytes.old }
    requires few { length accesses.now ≤ 254 }
    ensures front { BeginsWith result bytes.new (command_bytes (one_command true accesses.now)) }
{
    let mut words = [0u32; 254];
    let count = put_words(accesses, &mut words);
    let command = Command::WriteBlock {
        request: WRITE_DRW,
        words: &words[..count],
    };
    write_single(&command, bytes)
}

// Writes a Transfer of these requests into the front of a buffer, and answers how many bytes it has.
fn write_transfer(requests: &[Request], bytes: &mut [u8]) -> usize
    requires command { IsCommand (Transfer requests.now) }
    requires fits { length (command_bytes (Transfer requests.now)) ≤ length bytes.old }
    ensures front { BeginsWith result bytes.new (command_bytes (Transfer requests.now)) }
{
    write_single(&Command::Transfer(requests), bytes)
}

/// Writes the command of a flight in one packet into the front of a buffer, and answers how many
/// bytes it has. The requests are those of the accesses.
pub fn write_one(
    is_block: bool,
    accesses: &[RegAccess],
    requests: &[Request],
    bytes: &mut [u8],
) -> usize
    requires requests { requests.now ≡ requests_for false accesses.now }
    requires command { IsCommand (one_command is_block accesses.now) }
    requires fits { length (command_bytes (one_command is_block accesses.now)) ≤ length bytes.old }
    requires few { is_block ≡ true → length accesses.now ≤ 254 }
    ensures front { BeginsWith result bytes.new (command_bytes (one_command is_block accesses.now)) }
{
    if is_block {
        write_block(accesses, bytes)
    } else {
        write_transfer(requests, bytes)
    }
}

/// Writes a command of few bytes into the front of a buffer, and answers how many it has.
pub fn write_single(command: &Command<'_>, bytes: &mut [u8]) -> usize
    requires command { IsCommand (command_value command.now) }
    requires fits { length (command_bytes (command_value command.now)) ≤ length bytes.old }
    ensures front { BeginsWith result bytes.new (command_bytes (command_value command.now)) }
{
    match write_command(command, bytes) {
        Some(size) => size,
        None => 0,
    }
}

// Writes a Transfer of these requests after so many bytes of a buffer, and answers the place after it.
fn write_transfer_at(requests: &[Request], bytes: &mut [u8], at: usize) -> usize
    requires command { IsCommand (Transfer requests.now) }
    requires fits { at + length (command_bytes (Transfer requests.now)) ≤ length bytes.old }
    ensures front { BeginsWith result bytes.new (take at bytes.old ++ command_bytes (Transfer requests.now)) }
{
    let (_, rest) = bytes.split_at_mut(at);
    at + write_transfer(requests, rest)
}

// The id of the packet of a chain: the last lets all run, and the others are held.
fn id_of(is_last: bool) -> u8
    ensures { result ≡ last_id is_last }
{
    if is_last { EXECUTE } else { QUEUE }
}

// Writes a packet of a chain, the last of it or a held one, into the front of a buffer, and answers
// how many bytes it has.
fn write_part(
    is_last: bool,
    accesses: &[RegAccess],
    requests: &mut [Request],
    bytes: &mut [u8],
) -> usize
    requires fits { FitsPacket 1024 2 (guarded_command accesses.now) }
    requires buffers { AreBuffers requests.old bytes.old }
    ensures front { BeginsWith result bytes.new (bytes_of_kind (last_kind is_last) (guarded_command accesses.now ∷ [])) }
{
    let count = put_guarded_requests(accesses, requests);
    bytes[0] = id_of(is_last);
    bytes[1] = 1;
    write_transfer_at(&requests[..count], bytes, 2)
}

/// Makes the packets of a chain of these accesses. `bytes` is room for one, and `requests` for its requests.
pub fn put_packets(
    packet_size: u16,
    accesses: &[RegAccess],
    packets: &mut PacketList,
    requests: &mut [Request],
    bytes: &mut [u8],
)
    requires few { length accesses.now < 65535 }
    requires fits { FitChain 1024 (parts_of packet_size accesses.now) }
    requires packets { IsFresh packets.old (length (parts_of packet_size accesses.now)) }
    requires buffers { AreBuffers requests.old bytes.old }
    ensures items { packets.new.items ≡ chain_packets (parts_of packet_size accesses.now) }
    ensures room { packets.new.room ≡ packets.old.room }
{
    let mut start = 0;
    while start < accesses.len() {
        let rest = &accesses[start..];
        let len = first_part(packet_size, rest);
        let size = write_part(len == rest.len(), &rest[..len], requests, bytes);
        packets.push(&bytes[..size]);
        start += len;
    }
}
