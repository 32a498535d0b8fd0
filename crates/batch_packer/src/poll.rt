//! A portion of a poll of CTRL/STAT in one packet, over a bench.
ghost use Rattle.std.specs.Prelude.{◌≡◌, ◌&&◌, ◌+◌, ◌-◌, ◌<◌, ◌≤◌, ◌++◌, [], ◌∷◌, true, length, slice_get, take, Some, List};
ghost use Rattle.dap_messages.specs.Commands.{IsCommand, command_bytes, command_value, packet_bytes};
ghost use Rattle.dap_replies.specs.ReplyReading.{reply_read};
ghost use Rattle.dap_messages.specs.declared.command.PacketKind.{PacketKind};
ghost use Rattle.dap_messages.specs.declared.command_value.CommandValue.{CommandValue};
ghost use Rattle.batch_packer.specs.Commands.{end_in};
ghost use Rattle.batch_packer.specs.Exchanges.{HasExchanged, TakesPackets};
ghost use Rattle.batch_packer.specs.FlightEnds.{EndsOver, got_replies};
ghost use Rattle.batch_packer.specs.Flying.{StepsReady};
ghost use Rattle.batch_packer.specs.Polling.{AreTurns, PollsBy, commands_of, is_framed, is_of_four, is_read, match_end};
ghost use Rattle.batch_packer.specs.Polling.{matched_in, matched_read, packet_of};
ghost use Rattle.batch_packer.specs.Queues.{IsFresh};
ghost use Rattle.batch_packer.specs.Readings.{IsPacketOf};
ghost use Rattle.batch_packer.specs.Rooms.{most_bytes};

use crate::ends::{Cut, FlightEnd};
use crate::exchange::exchange;
use crate::packing::write_single;
use crate::reply::view_at;
use dap_base::Failed;
use dap_messages::{Command, Request, Response};
use probe_core::{Bench, Config, PacketList};

// The address of CTRL/STAT.
const CTRL_STAT: u8 = 0x4;

// DAP_ExecuteCommands.
const EXECUTE: u8 = 0x7F;

/// One portion of a poll: CTRL/STAT is read until the value under the mask is `value`, at most
/// `turns` times.
#[derive(Clone, Copy, Debug, PartialEq, Eq)]
pub struct PollAsk {
    pub mask: u32,
    pub value: u32,
    /// 1 to 65,536.
    pub turns: u32,
}

// Writes a command of at most 16 bytes at a place of a buffer, and answers the place after it.
fn put_command(command: &Command<'_>, bytes: &mut [u8], at: usize) -> usize
    requires command { IsCommand (command_value command.now) }
    requires short { length (command_bytes (command_value command.now)) ≤ 16 }
    requires room { at + 16 ≤ length bytes.old }
    ensures end { result ≡ at + length (command_bytes (command_value command.now)) }
    ensures front { take result bytes.new ≡ take at bytes.old ++ command_bytes (command_value command.now) }
{
    let mut one = [0u8; 16];
    let size = write_single(command, &mut one);
    bytes[at..at + size].copy_from_slice(&one[..size]);
    at + size
}

// Writes the packet of a poll into the front of a buffer, and answers how many bytes it has.
fn write_poll(config: Config, ask: PollAsk, bytes: &mut [u8]) -> usize
    requires turns { AreTurns ask.turns }
    requires room { 64 ≤ length bytes.old }
    ensures size { result ≡ 35 }
    ensures front { take result bytes.new ≡ packet_bytes (packet_of config ask) }
{
    let Config { idle, retry } = config;
    bytes[0] = EXECUTE;
    bytes[1] = 4;
    let matches = (ask.turns - 1) as u16;
    let at = put_command(
        &Command::Configure {
            idle,
            retry,
            matches,
        },
        bytes,
        2,
    );
    let requests = [
        Request::match_mask(ask.mask),
        Request::value_match(false, CTRL_STAT, ask.value),
    ];
    let at = put_command(&Command::Transfer(&requests), bytes, at);
    let clear = [Request::match_mask(0)];
    let at = put_command(&Command::Transfer(&clear), bytes, at);
    put_command(
        &Command::Configure {
            idle,
            retry,
            matches: 0,
        },
        bytes,
        at,
    )
}

// Whether a reply is of a packet of four commands, and has 12 bytes.
fn is_of_four(reply: &[u8]) -> bool
    ensures { result ≡ is_of_four reply.now }
{
    reply.len() == 12 && reply[0] == EXECUTE && reply[1] == 4
}

// Whether a reply is one that the command of a packet at this index may get.
fn is_read(packet: &[u8], index: u8, reply: &[u8]) -> bool
    ensures { (kind : PacketKind) (commands : List CommandValue) (command : CommandValue) → IsPacketOf kind commands packet.now
        → slice_get commands index ≡ Some command → result ≡ is_read command reply.now }
{
    view_at(packet, index, reply).is_some()
}

// Whether all three are so.
fn are_all(first: bool, second: bool, third: bool) -> bool
    ensures { result ≡ (first && (second && third)) }
{
    first && second && third
}

// Whether the replies to the commands around the value match are ones that these may get.
fn is_framed(packet: &[u8], reply: &[u8]) -> bool
    ensures framed { (kind : PacketKind) (config : Config) (ask : PollAsk) → IsPacketOf kind (commands_of config ask) packet.now
        → result ≡ is_framed config ask reply.now }
    ensures long { result ≡ true → length reply.now ≡ 12 }
{
    if !is_of_four(reply) {
        return false;
    }
    let before = is_read(packet, 0, &reply[2..4]);
    let cleared = is_read(packet, 2, &reply[7..10]);
    let after = is_read(packet, 3, &reply[10..12]);
    are_all(before, cleared, after)
}

// Whether the register matched, by the response to the value match.
fn match_end(response: Option<Response>) -> Result<bool, FlightEnd>
    ensures end { result ≡ match_end response }
    ensures got { got_replies (end_in result) ≡ true }
{
    match response {
        None => Err(FlightEnd::ReplyBad),
        Some(Response::Good) => Ok(true),
        Some(Response::Mismatch) => Ok(false),
        Some(stopped) => Err(FlightEnd::Cut(Cut {
            performed: 0,
            confirmed: 0,
            response: stopped.code(),
        })),
    }
}

// Whether the register matched, by the reply to the packet of a poll.
fn read_poll(packet: &[u8], reply: &[u8]) -> Result<bool, FlightEnd>
    ensures read { (kind : PacketKind) (config : Config) (ask : PollAsk) → IsPacketOf kind (commands_of config ask) packet.now
        → result ≡ matched_in config ask reply.now }
    ensures got { got_replies (end_in result) ≡ true }
{
    if !is_framed(packet, reply) {
        return Err(FlightEnd::ReplyBad);
    }
    match view_at(packet, 1, &reply[4..7]) {
        None => Err(FlightEnd::ReplyBad),
        Some(view) => match_end(Response::from_code(view.response())),
    }
}

/// Sends one portion of a poll in one packet, and answers whether the register matched. The packet and
/// the reply are kept; `bytes` is room for either.
pub fn send_poll<B: Bench>(
    config: Config,
    ask: PollAsk,
    packets: &mut PacketList,
    replies: &mut PacketList,
    bytes: &mut [u8],
    bench: &mut B,
) -> Result<bool, FlightEnd>
    requires bench { TakesPackets (B.reported bench.old) }
    requires turns { AreTurns ask.turns }
    requires bytes { length bytes.old ≡ most_bytes }
    requires packets { IsFresh packets.old 1 }
    requires replies { IsFresh replies.old 1 }
    ensures polled { StepsReady B.reported B.state (PollsBy config ask result) bench.old bench.new }
    ensures read { got_replies (end_in result) ≡ true → result ≡ matched_read config ask replies.new.items }
    ensures packets { packets.new.items ≡ packet_bytes (packet_of config ask) ∷ [] }
    ensures exchanged { got_replies (end_in result) ≡ true
        → HasExchanged packets.new.items replies.new.items (B.reported bench.old) (B.reported bench.new) }
    ensures packets_room { packets.new.room ≡ packets.old.room }
    ensures replies_room { replies.new.room ≡ replies.old.room }
    ensures keeps { EndsOver B.reported B.state B.identity (end_in result) bench.old bench.new }
{
    let size = write_poll(config, ask, bytes);
    packets.push(&bytes[..size]);
    match exchange(packets.get(0), bytes, bench) {
        Err(Failed) => Err(FlightEnd::BenchFault),
        Ok(len) => {
            replies.push(&bytes[..len]);
            read_poll(packets.get(0), replies.get(0))
        }
    }
}
