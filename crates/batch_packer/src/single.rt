//! A command of the probe in one packet, over a bench.
ghost use Rattle.std.specs.Prelude.{◌≡◌, ◌+◌, ◌*◌, [], ◌∷◌, true, length, slice_index};
ghost use Rattle.dap_messages.specs.Commands.{command_bytes, command_value};
ghost use Rattle.dap_replies.specs.ReplyReading.{reply_read};
ghost use Rattle.dap_messages.specs.declared.command.PacketKind.{PacketKind};
ghost use Rattle.batch_packer.specs.Commands.{DoneBy, IsSingle, end_in, number_by, number_in, number_read};
ghost use Rattle.batch_packer.specs.Exchanges.{HasExchanged, StepsWhere, TakesPackets};
ghost use Rattle.batch_packer.specs.FlightEnds.{EndsOver, got_replies};
ghost use Rattle.batch_packer.specs.Flying.{HasLimits};
ghost use Rattle.batch_packer.specs.Queues.{IsFresh};
ghost use Rattle.batch_packer.specs.Readings.{IsPacketOf, shown_in};
ghost use Rattle.batch_packer.specs.Rooms.{most_bytes};

use crate::ends::FlightEnd;
use crate::exchange::exchange;
use crate::packing::write_single;
use crate::reply::view_at;
use dap_base::Failed;
use dap_messages::Command;
use dap_replies::ReplyView;
use probe_core::{Bench, PacketList};

// The byte at an index, and 0 where there is none.
fn byte_at(bytes: &[u8], index: usize) -> u8
    ensures { result ≡ slice_index bytes.now index }
{
    if index < bytes.len() { bytes[index] } else { 0 }
}

// The number that a reply shows: a packet count or size, the levels of the pins, and else 0.
fn number_in(command: &Command<'_>, view: &ReplyView<'_>) -> u32
    ensures { result ≡ number_in (command_value command.now) view.now }
{
    let bytes = view.words();
    match *command {
        Command::Info(_) => byte_at(bytes, 1) as u32 + 256 * byte_at(bytes, 2) as u32,
        Command::Pins { .. } => byte_at(bytes, 0) as u32,
        _ => 0,
    }
}

// The same of the reply to the packet of the command, where the command may get it; any other is bad.
fn read_number(command: &Command<'_>, packet: &[u8], reply: &[u8]) -> Result<u32, FlightEnd>
    ensures read { (kind : PacketKind) → IsPacketOf kind (command_value command.now ∷ []) packet.now
        → result ≡ number_by (command_value command.now) (shown_in (reply_read (command_value command.now) reply.now)) }
    ensures got { got_replies (end_in result) ≡ true }
{
    match view_at(packet, 0, reply) {
        None => Err(FlightEnd::ReplyBad),
        Some(view) => Ok(number_in(command, &view)),
    }
}

/// Sends a command that is no Transfer and no block in one packet, and answers the number that its
/// reply shows. The packet and the reply are kept; `bytes` is room for either.
pub fn send_single<B: Bench>(
    command: &Command<'_>,
    packets: &mut PacketList,
    replies: &mut PacketList,
    bytes: &mut [u8],
    bench: &mut B,
) -> Result<u32, FlightEnd>
    requires bench { TakesPackets (B.reported bench.old) }
    requires command { IsSingle (command_value command.now) }
    requires bytes { length bytes.old ≡ most_bytes }
    requires packets { IsFresh packets.old 1 }
    requires replies { IsFresh replies.old 1 }
    ensures done { StepsWhere (HasLimits (B.reported bench.old).limits) (DoneBy (command_value command.now) result)
        (B.state bench.old) (B.state bench.new) }
    ensures read { got_replies (end_in result) ≡ true → result ≡ number_read (command_value command.now) replies.new.items }
    ensures packets { packets.new.items ≡ command_bytes (command_value command.now) ∷ [] }
    ensures exchanged { got_replies (end_in result) ≡ true
        → HasExchanged packets.new.items replies.new.items (B.reported bench.old) (B.reported bench.new) }
    ensures packets_room { packets.new.room ≡ packets.old.room }
    ensures replies_room { replies.new.room ≡ replies.old.room }
    ensures keeps { EndsOver B.reported B.state B.identity (end_in result) bench.old bench.new }
{
    let size = write_single(command, bytes);
    packets.push(&bytes[..size]);
    match exchange(packets.get(0), bytes, bench) {
        Err(Failed) => Err(FlightEnd::BenchFault),
        Ok(len) => {
            replies.push(&bytes[..len]);
            read_number(command, packets.get(0), replies.get(0))
        }
    }
}
