//! The register accesses of an exchange that were made.
ghost use Rattle.std.specs.Prelude.{◌≡◌, ◌++◌, ◌<◌, ◌^◌, IfOk, OnOk, length};
ghost use Rattle.std.specs.Option.{option_copied};
ghost use Rattle.dap_messages.specs.Commands.{IsCommand, requests_of};
ghost use Rattle.dap_messages.specs.Requests.{kind, block_requests};
ghost use Rattle.dap_messages.specs.PacketReading.{packet_read};
ghost use Rattle.register_words.specs.Registers.{register_of};
ghost use Rattle.packet_words.specs.Requests.{after_requests};
ghost use Rattle.packet_words.specs.Commands.{after_command};
ghost use Rattle.packet_words.specs.Accesses.{one_access, done_accesses, access_by_fate, request_access, requests_accesses, own_access};
ghost use Rattle.packet_words.specs.Accesses.{command_accesses, answered_accesses, all_accesses, packet_accesses, exchange_accesses};

use crate::command_words::{follow_reply, left_of};
use crate::exchange::{after_head, head_fault};
use crate::fate::{Fate, Left, follow};
use crate::replies::own_bytes;
use dap_base::{ItemList, OutOfMemory};
use dap_messages::{
    CommandValue, CommandView, Commands, PacketKind, PacketView, Request, RequestKind, Requests,
    WordBytes, packet_view,
};
use dap_replies::{ReplyView, reply_view};
use register_words::{KnownRegisters, Register, RegisterAccess, register_of};
use std::alloc::Global;

/// The accesses of registers, in order.
pub type Accesses = ItemList<RegisterAccess>;

fn add(accesses: &mut Accesses, register: Register, is_write: bool) -> Result<(), OutOfMemory>
    ensures { OnOk result (accesses.new ≡ accesses.old ++ one_access register is_write) }
{
    accesses.push(RegisterAccess { register, is_write })
}

// The access of a request that is no normal read and was executed.
#[tactic(auto, unfolding(crate::specs::Accesses::done_accesses))]
fn add_done(
    accesses: &mut Accesses,
    kind: RequestKind,
    register: Register,
) -> Result<(), OutOfMemory>
    ensures { OnOk result (accesses.new ≡ accesses.old ++ done_accesses kind register) }
{
    match kind {
        RequestKind::Write => add(accesses, register, true),
        RequestKind::Match => add(accesses, register, false),
        RequestKind::Mask | RequestKind::Posted | RequestKind::Read => Ok(()),
    }
}

// The access of a request, by what became of it.
#[tactic(auto, unfolding(crate::specs::Accesses::access_by_fate))]
fn add_request(
    accesses: &mut Accesses,
    known: &KnownRegisters,
    request: Request,
    fate: Fate,
) -> Result<(), OutOfMemory>
    ensures { OnOk result (accesses.new ≡ accesses.old ++ request_access known.now request fate) }
{
    let register = register_of(known.select, request.byte);
    match fate {
        Fate::Done => add_done(accesses, request.kind(), register),
        Fate::Gave(_) | Fate::NoWord => add(accesses, register, false),
        Fate::Skipped | Fate::NotKnown => Ok(()),
    }
}

// The accesses of the requests of a transfer, where this is left of its reply.
fn add_requests(
    accesses: &mut Accesses,
    known: &mut KnownRegisters,
    requests: &Requests<'_>,
    left: Left<'_>,
) -> Result<(), OutOfMemory>
    ensures accesses { OnOk result (accesses.new ≡ accesses.old ++ requests_accesses known.old left.entry requests.now) }
    ensures known { OnOk result (known.new ≡ after_requests known.old left.entry requests.now) }
{
    let mut left = left;
    let mut coming = requests.iter();
    while let Some(request) = coming.next() {
        let fate = left.fate_of(request);
        add_request(accesses, known, request, fate)?;
        follow(known, request, fate);
        left = left.after(request);
    }
    Ok(())
}

// The accesses of the words of a block, each as a request of this byte.
fn add_block(
    accesses: &mut Accesses,
    known: &mut KnownRegisters,
    byte: u8,
    words: &WordBytes<'_>,
    left: Left<'_>,
) -> Result<(), OutOfMemory>
    requires { length words.now < 2 ^ 16 }
    ensures accesses { OnOk result (accesses.new ≡ accesses.old ++ requests_accesses known.old left.entry (block_requests byte words.now)) }
    ensures known { OnOk result (known.new ≡ after_requests known.old left.entry (block_requests byte words.now)) }
{
    let mut left = left;
    for index in 0..words.len() as u16 {
        let Some(word) = words.get(index) else {
            return Ok(());
        };
        let request = Request { byte, word };
        let fate = left.fate_of(request);
        add_request(accesses, known, request, fate)?;
        follow(known, request, fate);
        left = left.after(request);
    }
    Ok(())
}

// The accesses of the requests of a command.
fn add_its_requests(
    accesses: &mut Accesses,
    known: &mut KnownRegisters,
    command: &CommandValue<'_>,
    left: Left<'_>,
) -> Result<(), OutOfMemory>
    requires { IsCommand command.now }
    ensures accesses { OnOk result (accesses.new ≡ accesses.old ++ requests_accesses known.old left.entry (requests_of command.now)) }
    ensures known { OnOk result (known.new ≡ after_requests known.old left.entry (requests_of command.now)) }
{
    match command {
        CommandValue::Transfer(requests) => add_requests(accesses, known, requests, left),
        CommandValue::WriteBlock { request, words } => {
            add_block(accesses, known, *request, words, left)
        }
        _ => Ok(()),
    }
}

// The access of a command itself.
#[tactic(auto, unfolding(crate::specs::Accesses::own_access))]
fn add_own(accesses: &mut Accesses, command: &CommandValue<'_>) -> Result<(), OutOfMemory>
    ensures { OnOk result (accesses.new ≡ accesses.old ++ own_access command.now) }
{
    match command {
        CommandValue::Abort(_) => add(accesses, Register::Abort, true),
        _ => Ok(()),
    }
}

// The accesses of a command that has a reply.
fn add_command(
    accesses: &mut Accesses,
    known: &mut KnownRegisters,
    command: &CommandView<'_>,
    reply: ReplyView<'_>,
) -> Result<(), OutOfMemory>
    ensures accesses { OnOk result (accesses.new ≡ accesses.old ++ command_accesses known.old command.now reply.entry) }
    ensures known { OnOk result (known.new ≡ after_command known.old command.now (Some reply.entry)) }
{
    let reply = Some(reply);
    add_own(accesses, command.value())?;
    add_its_requests(accesses, known, command.value(), left_of(&reply))?;
    follow_reply(known, command.value(), &reply);
    Ok(())
}

// The accesses of commands in order, each with its reply.
fn add_answered(
    accesses: &mut Accesses,
    known: &mut KnownRegisters,
    commands: &Commands<'_>,
    bytes: &[u8],
) -> Result<(), OutOfMemory>
    ensures { OnOk result (accesses.new ≡ accesses.old ++ answered_accesses known.old commands.now bytes.now) }
{
    let mut left = commands.iter();
    let mut bytes = bytes;
    while let Some(command) = left.next() {
        let size = own_bytes(&left, command.value(), bytes);
        let Ok(reply) = reply_view(&command, &bytes[..size]) else {
            return Ok(());
        };
        add_command(accesses, known, &command, reply)?;
        bytes = &bytes[size..];
    }
    Ok(())
}

// The accesses of several commands.
fn add_all(
    accesses: &mut Accesses,
    known: &mut KnownRegisters,
    packet: &PacketView<'_>,
    bytes: &[u8],
) -> Result<(), OutOfMemory>
    ensures { OnOk result (accesses.new ≡ accesses.old ++ all_accesses packet.now.kind known.old packet.now.commands bytes.now) }
{
    match head_fault(packet.kind(), packet.count(), bytes) {
        Some(_) => Ok(()),
        None => add_answered(accesses, known, &packet.commands(), after_head(bytes)),
    }
}

// The accesses of a packet.
fn add_packet(
    accesses: &mut Accesses,
    known: &mut KnownRegisters,
    packet: &PacketView<'_>,
    bytes: &[u8],
) -> Result<(), OutOfMemory>
    ensures { OnOk result (accesses.new ≡ accesses.old ++ packet_accesses packet.now.kind known.old packet.now.commands bytes.now) }
{
    match packet.kind() {
        PacketKind::Plain => add_answered(accesses, known, &packet.commands(), bytes),
        PacketKind::Execute | PacketKind::Queue => add_all(accesses, known, packet, bytes),
    }
}

/// The register accesses of an exchange that were made, in order: the bytes of a packet, and those of its reply where there is one.
/// `known` is what was known of the registers before it. Without a reply, and from a reply on that the packet cannot have, none is
/// known to be made. `OutOfMemory` where memory is refused.
pub fn exchange_accesses(
    alloc: Global,
    known: &KnownRegisters,
    packet: &[u8],
    reply: Option<&[u8]>,
) -> Result<Accesses, OutOfMemory>
    ensures { IfOk result (λ accesses. accesses ≡ exchange_accesses known.now packet.now (option_copied reply.entry)) }
{
    let mut accesses = Accesses::new(alloc);
    let (Some(reply), Ok(packet)) = (reply, packet_view(packet)) else {
        return Ok(accesses);
    };
    let mut known = KnownRegisters {
        select: known.select,
        ports: known.ports,
    };
    add_packet(&mut accesses, &mut known, &packet, reply)?;
    Ok(accesses)
}
