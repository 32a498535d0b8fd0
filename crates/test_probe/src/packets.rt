//! Packets, read in place.

use dap_messages::{CommandValue, CommandView, PacketKind, PacketView, packet_view};
use std::alloc::{AllocError, Global};
use test_benches::put_request;
use test_words::{RowError, Trial, bytes_of};

// Writes the requests of a command, each looked up by its number.
fn put_requests(text: &mut String, command: &CommandView<'_>) -> Result<(), AllocError> {
    for index in 0..256 {
        let Some(request) = command.request(index) else {
            return Ok(());
        };
        text.push_str(if index == 0 { " " } else { ", " })?;
        put_request(text, request)?;
    }
    Ok(())
}

// Writes what a command says.
fn put_value(text: &mut String, value: &CommandValue<'_>) -> Result<(), AllocError> {
    match value {
        CommandValue::Info(id) => write!(text, "DAP_Info {id:#X}"),
        CommandValue::Transfer(requests) => {
            let count = requests.len();
            let reads = requests.reads();
            let turns = requests.iter().count();
            write!(
                text,
                "DAP_Transfer of {count} with {reads} reads in {turns}:"
            )
        }
        CommandValue::WriteBlock { words, .. } => {
            let count = words.len();
            write!(text, "DAP_TransferBlock of {count}:")
        }
        other => write!(text, "{other:?}"),
    }
}

// Writes how a packet is run, how many commands it has, and how long its longest reply is; and of each command what it says, its
// requests, and how long its longest reply is.
fn put_view(text: &mut String, packet: &PacketView<'_>) -> Result<(), AllocError> {
    let kind = match packet.kind() {
        PacketKind::Plain => "plain",
        PacketKind::Execute => "execute",
        PacketKind::Queue => "queue",
    };
    let count = packet.count();
    let longest = packet.longest_reply();
    write!(text, "{kind} {count}, {longest}")?;
    for command in packet.commands() {
        text.push_str("; ")?;
        put_value(text, command.value())?;
        put_requests(text, &command)?;
        let longest = command.longest_reply();
        write!(text, ", {longest}")?;
    }
    Ok(())
}

/// Bytes, and the packet that they are, or their first fault. A form `length` shows of a packet only that it is one.
#[derive(Drop)]
pub struct PacketViews {
    shows: bool,
}

impl Trial for PacketViews {
    fn begin(_alloc: Global, form: &str) -> Result<PacketViews, RowError> {
        Ok(PacketViews {
            shows: form != "length",
        })
    }

    fn answer(&mut self, alloc: Global, input: &str) -> Result<String, RowError> {
        let bytes = bytes_of(alloc, input)?;
        let mut text = String::new(alloc);
        match packet_view(bytes.as_slice()) {
            Ok(packet) => {
                if self.shows {
                    put_view(&mut text, &packet)?;
                } else {
                    text.push_str("a packet")?;
                }
            }
            Err(fault) => write!(text, "{fault:?}")?,
        }
        Ok(text)
    }
}
