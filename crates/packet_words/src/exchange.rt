//! The words of an exchange: a packet and its reply.
ghost use Rattle.std.specs.Prelude.{◌≡◌, ◌++◌, ◌∷◌, IfOk, OnOk, codes, decimal, drop, length};
ghost use Rattle.std.specs.Option.{option_copied};
ghost use Rattle.dap_messages.specs.PacketReading.{packet_read};
ghost use Rattle.register_words.specs.Known.{nothing_known};
ghost use Rattle.packet_words.specs.Saying.{AddsSaid, SaysAll};
ghost use Rattle.packet_words.specs.Exchange.{unanswered_lines, misanswer_line, misanswered_words, commands_said, kind_words, head_words, is_head};
ghost use Rattle.packet_words.specs.Exchange.{head_fault, all_answered, packet_answered, replied_line, unreplied_line, packet_said};
ghost use Rattle.packet_words.specs.Exchange.{no_packet_line, no_packet, said_of, reply_line, trace_lines, exchange};

use crate::command_words::{first_byte, with_command, with_digits};
use crate::fault::with_fault;
use crate::replies::own_bytes;
use dap_base::OutOfMemory;
use dap_messages::{CommandView, Commands, MessageError, PacketKind, PacketView, packet_view};
use dap_replies::reply_view;
use register_words::KnownRegisters;
use std::alloc::Global;
use text_lines::Line;

/// What is said of a packet and its reply.
#[derive(Drop)]
pub struct Said {
    /// The text, whole lines.
    pub line: Line,
    /// Whether they are a packet, and a reply that it may get where there is one.
    pub is_good: bool,
}

// The lines of commands whose replies are not known. Nothing is known after them.
fn with_unanswered(
    alloc: Global,
    line: Line,
    known: &mut KnownRegisters,
    commands: &Commands<'_>,
) -> Result<Line, OutOfMemory>
    ensures text { IfOk result (λ l. l ≡ line ++ unanswered_lines known.old commands.now) }
    ensures known { OnOk result (known.new ≡ nothing_known) }
{
    let mut line = line;
    let mut left = commands.iter();
    while let Some(command) = left.next() {
        line = with_command(alloc, line, known, &command, &None)?;
    }
    known.forget();
    Ok(line)
}

// The line of a reply that is none.
#[tactic(auto, unfolding(crate::specs::Exchange::misanswer_line))]
fn with_misanswer(
    alloc: Global,
    line: Line,
    fault: MessageError,
    bytes: &[u8],
) -> Result<Line, OutOfMemory>
    ensures { IfOk result (λ l. l ≡ line ++ misanswer_line fault bytes.now) }
{
    let line = with_fault(line.text("  no reply: ")?, fault)?.text(" of ")?;
    with_digits(alloc, line, bytes)?.text("\n")
}

// Commands of which the bytes are no reply.
fn with_misanswered(
    alloc: Global,
    line: Line,
    known: &mut KnownRegisters,
    commands: &Commands<'_>,
    fault: MessageError,
    bytes: &[u8],
) -> Result<Said, OutOfMemory>
    ensures { IfOk result (λ s. AddsSaid line (misanswered_words known.old commands.now fault bytes.now) s known.new) }
{
    let line = with_misanswer(alloc, line, fault, bytes)?;
    let line = with_unanswered(alloc, line, known, commands)?;
    Ok(Said {
        line,
        is_good: false,
    })
}

// The same of a command, and the commands after it.
fn with_misanswered_first(
    alloc: Global,
    line: Line,
    known: &mut KnownRegisters,
    command: &CommandView<'_>,
    later: &Commands<'_>,
    fault: MessageError,
    bytes: &[u8],
) -> Result<Said, OutOfMemory>
    ensures { IfOk result (λ s. AddsSaid line (misanswered_words known.old (command.now ∷ later.now) fault bytes.now) s known.new) }
{
    let line = with_misanswer(alloc, line, fault, bytes)?;
    let line = with_command(alloc, line, known, command, &None)?;
    let line = with_unanswered(alloc, line, known, later)?;
    Ok(Said {
        line,
        is_good: false,
    })
}

// The commands in order, each with its reply.
fn with_answers(
    alloc: Global,
    line: Line,
    known: &mut KnownRegisters,
    commands: &Commands<'_>,
    bytes: &[u8],
) -> Result<Said, OutOfMemory>
    ensures { IfOk result (λ s. AddsSaid line (commands_said known.old commands.now bytes.now) s known.new) }
{
    let mut line = line;
    let mut left = commands.iter();
    let mut bytes = bytes;
    while let Some(command) = left.next() {
        let size = own_bytes(&left, command.value(), bytes);
        match reply_view(&command, &bytes[..size]) {
            Ok(reply) => {
                line = with_command(alloc, line, known, &command, &Some(reply))?;
                bytes = &bytes[size..];
            }
            Err(fault) => {
                return with_misanswered_first(alloc, line, known, &command, &left, fault, bytes);
            }
        }
    }
    Ok(Said {
        line,
        is_good: true,
    })
}

// Whether a reply to several commands may begin with this byte.
fn is_head(kind: PacketKind, byte: u8) -> bool
    ensures { result ≡ is_head kind byte }
{
    match kind {
        PacketKind::Plain => false,
        PacketKind::Execute => byte == 0x7F,
        PacketKind::Queue => byte == 0x7F || byte == 0x7E,
    }
}

// The fault of the first two bytes of a reply to so many commands, where they have one.
#[tactic(auto, unfolding(crate::specs::Exchange::head_fault))]
pub fn head_fault(kind: PacketKind, count: u8, bytes: &[u8]) -> Option<MessageError>
    ensures { result ≡ head_fault kind count bytes.now }
{
    match bytes {
        [] => Some(MessageError::Short(0)),
        [_] => Some(MessageError::Short(1)),
        [id, ..] if !is_head(kind, *id) => Some(MessageError::BadId(0)),
        [_, number, ..] if *number != count => Some(MessageError::BadCount(1)),
        _ => None,
    }
}

// The reply to several commands.
fn with_all_answers(
    alloc: Global,
    line: Line,
    known: &mut KnownRegisters,
    packet: &PacketView<'_>,
    bytes: &[u8],
) -> Result<Said, OutOfMemory>
    ensures { IfOk result (λ s. AddsSaid line (all_answered packet.now.kind known.old packet.now.commands bytes.now) s known.new) }
{
    let commands = packet.commands();
    match head_fault(packet.kind(), packet.count(), bytes) {
        Some(fault) => with_misanswered(alloc, line, known, &commands, fault, bytes),
        None => with_answers(alloc, line, known, &commands, after_head(bytes)),
    }
}

// The bytes after the first two.
pub fn after_head(bytes: &[u8]) -> &[u8]
    ensures { result.now ≡ drop 2 bytes.now }
{
    match bytes {
        [_, _, others @ ..] => others,
        _ => &[],
    }
}

// The reply to a packet.
fn with_packet_answers(
    alloc: Global,
    line: Line,
    known: &mut KnownRegisters,
    packet: &PacketView<'_>,
    bytes: &[u8],
) -> Result<Said, OutOfMemory>
    ensures { IfOk result (λ s. AddsSaid line (packet_answered packet.now.kind known.old packet.now.commands bytes.now) s known.new) }
{
    match packet.kind() {
        PacketKind::Plain => with_answers(alloc, line, known, &packet.commands(), bytes),
        PacketKind::Execute | PacketKind::Queue => {
            with_all_answers(alloc, line, known, packet, bytes)
        }
    }
}

// How a packet is run.
#[tactic(auto, unfolding(crate::specs::Exchange::kind_words))]
fn with_kind(line: Line, kind: PacketKind, count: u8) -> Result<Line, OutOfMemory>
    ensures { IfOk result (λ l. l ≡ line ++ kind_words kind count) }
{
    match kind {
        PacketKind::Plain => line.text("one command"),
        PacketKind::Execute => line.add_labelled("execute ", u64::from(count)),
        PacketKind::Queue => line.add_labelled("queue ", u64::from(count)),
    }
}

// The first byte of the reply to several commands.
#[tactic(auto, unfolding(crate::specs::Exchange::head_words))]
fn with_head(line: Line, kind: PacketKind, bytes: &[u8]) -> Result<Line, OutOfMemory>
    ensures { IfOk result (λ l. l ≡ line ++ head_words kind bytes.now) }
{
    match kind {
        PacketKind::Plain => Ok(line),
        PacketKind::Execute | PacketKind::Queue => line.text(" -> ")?.hex2(first_byte(bytes)),
    }
}

// The sizes of a packet and its reply.
fn with_sizes(line: Line, out: usize, back: usize) -> Result<Line, OutOfMemory>
    ensures { IfOk result (λ l. l ≡ line ++ codes ", " ++ decimal out ++ codes " bytes out, " ++ decimal back ++ codes " in\n") }
{
    let line = line.add_labelled(", ", out as u64)?;
    line.add_labelled(" bytes out, ", back as u64)?
        .text(" in\n")
}

#[tactic(auto, unfolding(crate::specs::Exchange::replied_line))]
fn with_replied(
    line: Line,
    number: u64,
    packet: &PacketView<'_>,
    size: usize,
    reply: &[u8],
) -> Result<Line, OutOfMemory>
    ensures { IfOk result (λ l. l ≡ line ++ replied_line number packet.now size reply.now) }
{
    let line = line.add_labelled("exchange ", number)?.text(": ")?;
    let line = with_kind(line, packet.kind(), packet.count())?;
    let line = with_head(line, packet.kind(), reply)?;
    with_sizes(line, size, reply.len())
}

#[tactic(auto, unfolding(crate::specs::Exchange::unreplied_line))]
fn with_unreplied(
    line: Line,
    number: u64,
    packet: &PacketView<'_>,
    size: usize,
) -> Result<Line, OutOfMemory>
    ensures { IfOk result (λ l. l ≡ line ++ unreplied_line number packet.now size) }
{
    let line = line
        .add_labelled("exchange ", number)?
        .text(" without a reply: ")?;
    let line = with_kind(line, packet.kind(), packet.count())?;
    line.add_labelled(", ", size as u64)?.text(" bytes out\n")
}

// A packet, with its reply where there is one.
fn packet_said(
    alloc: Global,
    line: Line,
    known: &mut KnownRegisters,
    number: u64,
    size: usize,
    packet: &PacketView<'_>,
    reply: Option<&[u8]>,
) -> Result<Said, OutOfMemory>
    ensures { IfOk result (λ s. AddsSaid line (packet_said known.old number size packet.now (option_copied reply.entry)) s known.new) }
{
    match reply {
        Some(reply) => {
            let line = with_replied(line, number, packet, size, reply)?;
            with_packet_answers(alloc, line, known, packet, reply)
        }
        None => {
            let line = with_unreplied(line, number, packet, size)?;
            let line = with_unanswered(alloc, line, known, &packet.commands())?;
            Ok(Said {
                line,
                is_good: true,
            })
        }
    }
}

// The line of what is no packet.
#[tactic(auto, unfolding(crate::specs::Exchange::no_packet_line))]
fn with_no_packet(line: Line, number: u64, fault: MessageError) -> Result<Line, OutOfMemory>
    ensures { IfOk result (λ l. l ≡ line ++ no_packet_line number fault) }
{
    let line = line
        .add_labelled("exchange ", number)?
        .text(" is no packet: ")?;
    with_fault(line, fault)?.text("\n")
}

// What is no packet.
fn no_packet(
    line: Line,
    known: &mut KnownRegisters,
    number: u64,
    fault: MessageError,
) -> Result<Said, OutOfMemory>
    ensures { IfOk result (λ s. AddsSaid line (no_packet number fault) s known.new) }
{
    known.forget();
    Ok(Said {
        line: with_no_packet(line, number, fault)?,
        is_good: false,
    })
}

// The words of a packet and its reply.
fn said_of(
    alloc: Global,
    line: Line,
    known: &mut KnownRegisters,
    number: u64,
    packet: &[u8],
    reply: Option<&[u8]>,
) -> Result<Said, OutOfMemory>
    ensures { IfOk result (λ s. AddsSaid line (said_of known.old number (length packet.now) (packet_read packet.now) (option_copied reply.entry)) s known.new) }
{
    match packet_view(packet) {
        Ok(view) => packet_said(alloc, line, known, number, packet.len(), &view, reply),
        Err(fault) => no_packet(line, known, number, fault),
    }
}

// The line of a reply in a trace.
#[tactic(auto, unfolding(crate::specs::Exchange::reply_line))]
fn with_reply_line(alloc: Global, line: Line, reply: Option<&[u8]>) -> Result<Line, OutOfMemory>
    ensures { IfOk result (λ l. l ≡ line ++ reply_line (option_copied reply.entry)) }
{
    match reply {
        Some(reply) => with_digits(alloc, line.text("< ")?, reply)?.text("\n"),
        None => Ok(line),
    }
}

// The lines of a packet and its reply in a trace.
#[tactic(auto, unfolding(crate::specs::Exchange::trace_lines))]
fn trace_lines(alloc: Global, packet: &[u8], reply: Option<&[u8]>) -> Result<Line, OutOfMemory>
    ensures { IfOk result (λ l. l ≡ trace_lines packet.now (option_copied reply.entry)) }
{
    let line = with_digits(alloc, Line::begin(alloc, "> ")?, packet)?.text("\n")?;
    with_reply_line(alloc, line, reply)
}

/// What is said of the exchange of this number: the bytes of a packet, and those of its reply where there is
/// one. First come their lines in a trace, then their words. What is known of the registers is taken from
/// `known`, and left there for the next exchange. `OutOfMemory` where memory is refused; what is known is then
/// of no use.
pub fn exchange_words(
    alloc: Global,
    known: &mut KnownRegisters,
    number: u64,
    packet: &[u8],
    reply: Option<&[u8]>,
) -> Result<Said, OutOfMemory>
    ensures { IfOk result (λ s. SaysAll (exchange known.old number packet.now (option_copied reply.entry)) s known.new) }
{
    let line = trace_lines(alloc, packet, reply)?;
    said_of(alloc, line, known, number, packet, reply)
}
