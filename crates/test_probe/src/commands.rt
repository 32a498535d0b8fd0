//! Commands, written as bytes and read again.
ghost use Rattle.std.specs.Prelude.{◌≤◌, length};
ghost use Rattle.dap_messages.specs.Commands.{IsCommand, command_value};

use dap_messages::MessageError::{self, Short, TrailingBytes};
use dap_messages::{Command, PacketKind, packet_view, write_command};
use std::alloc::Global;
use test_benches::{command_of, is_command, requests_of};
use test_words::{RowError, RowWords, Trial, put_bytes};

// The most bytes of a command of the table.
const MOST: usize = 32;

fn fault_of(bytes: &[u8]) -> Option<MessageError> {
    packet_view(bytes).err()
}

// Whether the bytes are read as a packet of one command, the one with these bytes.
fn is_read(bytes: &[u8]) -> bool {
    let Ok(packet) = packet_view(bytes) else {
        return false;
    };
    let is_one = packet.kind() == PacketKind::Plain && packet.count() == 1;
    let is_last = packet.command(1).is_none();
    match packet.command(0) {
        Some(command) => is_one && is_last && command.bytes() == bytes,
        None => false,
    }
}

// Whether each front of the bytes ends too soon, and has no room for the command.
fn is_short_before(command: &Command<'_>, bytes: &[u8]) -> bool
    requires { IsCommand (command_value command.now) }
{
    let mut room = [0; MOST];
    for short in 0..bytes.len() {
        if short >= MOST || fault_of(&bytes[..short]) != Some(Short(short)) {
            return false;
        }
        if write_command(command, &mut room[..short]).is_some() {
            return false;
        }
    }
    true
}

// Writes a command, and says where what is read of its bytes is not that command, where fewer bytes are not too short, where one
// more is not too long, and where more is written than the command.
fn show_command(alloc: Global, command: &Command<'_>) -> Result<String, RowError> {
    if !is_command(command) {
        return Err(RowError::Unreadable);
    }
    let mut out = [0xEE; MOST];
    let size = write_command(command, &mut out).unwrap_or(MOST);
    if size >= MOST {
        return Err(RowError::Unreadable);
    }
    let mut text = String::new(alloc);
    put_bytes(&mut text, &out[..size])?;
    if !is_read(&out[..size]) {
        text.push_str(", not read")?;
    }
    if out[size] != 0xEE || fault_of(&out[..size + 1]) != Some(TrailingBytes(size)) {
        text.push_str(", goes on")?;
    }
    if !is_short_before(command, &out[..size]) {
        text.push_str(", ends before")?;
    }
    Ok(text)
}

// A Transfer of the requests of a text.
fn transfer(alloc: Global, text: &str) -> Result<String, RowError> {
    let requests = requests_of(alloc, text)?;
    show_command(alloc, &Command::Transfer(requests.as_slice()))
}

// A block of two writes: the request byte and the words.
fn block(alloc: Global, words: &mut RowWords<'_>) -> Result<String, RowError> {
    let request = words.number8()?;
    let two = [words.number32()?, words.number32()?];
    words.end()?;
    show_command(
        alloc,
        &Command::WriteBlock {
            request,
            words: &two,
        },
    )
}

/// Commands and their bytes.
#[derive(Drop)]
pub struct WrittenCommands;

impl Trial for WrittenCommands {
    fn begin(_alloc: Global, _form: &str) -> Result<WrittenCommands, RowError> {
        Ok(WrittenCommands)
    }

    fn answer(&mut self, alloc: Global, input: &str) -> Result<String, RowError> {
        let mut words = RowWords::new(input);
        if words.takes("DAP_Transfer") {
            return transfer(alloc, words.take_rest());
        }
        if words.takes("DAP_TransferBlock") {
            return block(alloc, &mut words);
        }
        let command = command_of(&mut words)?;
        words.end()?;
        show_command(alloc, &command)
    }
}
