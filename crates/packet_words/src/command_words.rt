//! The words of a command, with its reply where there is one.
ghost use Rattle.std.specs.Prelude.{◌≡◌, ◌++◌, IfOk, OnOk, None, decimal};
ghost use Rattle.dap_replies.specs.ReplyReading.{id_byte};
ghost use Rattle.hex.specs.Hex.{encode_lower};
ghost use Rattle.dap_messages.specs.Commands.{IsCommand, requests_of};
ghost use Rattle.dap_messages.specs.Responses.{response_of};
ghost use Rattle.packet_words.specs.Commands.{response_name, outcome_words, info_number, info_outcome, leading_byte, pins_outcome, info_name};
ghost use Rattle.packet_words.specs.Commands.{pins_head, command_words, command_mark, packet_command_line, requests_left, command_lines};
ghost use Rattle.packet_words.specs.Commands.{after_response, after_pins, after_known, after_command};
ghost use Rattle.packet_words.specs.Requests.{request_lines, after_requests};

use crate::fate::Left;
use crate::request_words::{with_block, with_requests};
use dap_base::OutOfMemory;
use dap_messages::{CommandValue, CommandView, Requests, Response};
use dap_replies::ReplyView;
use register_words::{KnownRegisters, line_name, with_abort, with_pins};
use std::alloc::Global;
use text_lines::Line;

/// The reply to a command, where there is one.
pub type GivenReply<'a> = Option<ReplyView<'a>>;

/// The lower-case hexadecimal digits of bytes.
pub fn with_digits(alloc: Global, line: Line, bytes: &[u8]) -> Result<Line, OutOfMemory>
    ensures { IfOk result (λ l. l ≡ line ++ encode_lower bytes.now) }
{
    match hex::encode(alloc, bytes) {
        Ok(digits) => line.text(digits.as_str()),
        Err(_) => Err(OutOfMemory),
    }
}

#[tactic(auto, unfolding(crate::specs::Commands::response_name))]
fn response_name(response: Option<Response>) -> &'static str
    ensures { result.now ≡ response_name response }
{
    match response {
        Some(Response::Good) => " OK",
        Some(Response::Wait) => " WAIT",
        Some(Response::Fault) => " FAULT",
        Some(Response::Mismatch) => " MISMATCH",
        None => "",
    }
}

// How a transfer or a block ended.
#[tactic(auto, unfolding(crate::specs::Commands::outcome_words))]
fn with_outcome(line: Line, reply: &GivenReply<'_>) -> Result<Line, OutOfMemory>
    ensures { IfOk result (λ l. l ≡ line ++ outcome_words reply.now) }
{
    let Some(reply) = reply else {
        return Ok(line);
    };
    let name = response_name(Response::from_code(reply.response()));
    let line = line.text(" -> ")?.hex2(reply.response())?.text(name)?;
    line.add_labelled(" after ", u64::from(reply.count()))
}

// The number that the answer to DAP_Info makes.
#[tactic(auto, unfolding(crate::specs::Commands::info_number))]
fn info_number(bytes: &[u8]) -> u64
    ensures { result ≡ info_number bytes.now }
{
    match bytes {
        [_, low] => u64::from(*low),
        [_, low, high] => u64::from(*low) + 256 * u64::from(*high),
        _ => 0,
    }
}

#[tactic(auto, unfolding(crate::specs::Commands::info_outcome))]
fn with_info_outcome(alloc: Global, line: Line, reply: &GivenReply<'_>) -> Result<Line, OutOfMemory>
    ensures { IfOk result (λ l. l ≡ line ++ info_outcome reply.now) }
{
    let Some(reply) = reply else {
        return Ok(line);
    };
    let line = with_digits(alloc, line.text(" -> ")?, reply.words())?;
    line.add_labelled(" ", info_number(reply.words()))
}

/// The first byte; 0 where there is none.
#[tactic(auto, unfolding(crate::specs::Commands::leading_byte))]
pub fn first_byte(bytes: &[u8]) -> u8
    ensures { result ≡ leading_byte bytes.now }
{
    match bytes {
        [first, ..] => *first,
        [] => 0,
    }
}

#[tactic(auto, unfolding(crate::specs::Commands::pins_outcome))]
fn with_pins_outcome(line: Line, reply: &GivenReply<'_>) -> Result<Line, OutOfMemory>
    ensures { IfOk result (λ l. l ≡ line ++ pins_outcome reply.now) }
{
    let Some(reply) = reply else {
        return Ok(line);
    };
    line.text(" -> ")?.hex2(first_byte(reply.words()))
}

#[tactic(auto, unfolding(crate::specs::Commands::info_name))]
fn info_name(id: u8) -> &'static str
    ensures { result.now ≡ info_name id }
{
    if id == 0xFE {
        " packet count"
    } else {
        " packet size"
    }
}

#[tactic(auto, unfolding(crate::specs::Commands::command_words))]
fn with_configure(line: Line, idle: u8, retry: u16, matches: u16) -> Result<Line, OutOfMemory>
    ensures { IfOk result (λ l. l ≡ line ++ command_words (CommandValue.Configure idle retry matches) None) }
{
    let line = line.add_labelled(" configure idle ", u64::from(idle))?;
    let line = line.add_labelled(" retry ", u64::from(retry))?;
    line.add_labelled(" match retry ", u64::from(matches))
}

#[tactic(auto, unfolding(crate::specs::Commands::pins_head))]
fn begin_pins(line: Line, output: u8, select: u8) -> Result<Line, OutOfMemory>
    ensures { IfOk result (λ l. l ≡ line ++ pins_head output select) }
{
    let line = line.text(" pins ")?.hex2(output)?;
    let line = line.text(" select ")?.hex2(select)?;
    with_pins(line, select)
}

#[tactic(auto, unfolding(crate::specs::Commands::command_words))]
fn with_line(line: Line, count: u8, bits: u64) -> Result<Line, OutOfMemory>
    ensures { IfOk result (λ l. l ≡ line ++ command_words (CommandValue.Line count bits) None) }
{
    let line = line.add_labelled(" line ", u64::from(count))?;
    let line = line.text(" bits ")?.hex16(bits)?;
    line.text(line_name(count, bits))
}

// How many requests a transfer or a block has, and how it ended.
fn with_counted(
    line: Line,
    label: &str,
    count: u64,
    reply: &GivenReply<'_>,
) -> Result<Line, OutOfMemory>
    ensures { IfOk result (λ l. l ≡ line ++ (label.now ++ decimal count ++ outcome_words reply.now)) }
{
    with_outcome(line.add_labelled(label, count)?, reply)
}

#[tactic(auto, unfolding(crate::specs::Commands::command_words))]
fn with_pin_words(
    line: Line,
    output: u8,
    select: u8,
    wait: u32,
    reply: &GivenReply<'_>,
) -> Result<Line, OutOfMemory>
    ensures { IfOk result (λ l. l ≡ line ++ command_words (CommandValue.Pins output select wait) reply.now) }
{
    let line = begin_pins(line, output, select)?;
    with_pins_outcome(line.add_labelled(" wait us ", u64::from(wait))?, reply)
}

#[tactic(auto, unfolding(crate::specs::Commands::command_words))]
fn with_transfer(
    line: Line,
    requests: &Requests<'_>,
    reply: &GivenReply<'_>,
) -> Result<Line, OutOfMemory>
    ensures { IfOk result (λ l. l ≡ line ++ command_words (CommandValue.Transfer requests.now) reply.now) }
{
    with_counted(line, " transfer of ", u64::from(requests.len()), reply)
}

// The words after the id.
#[tactic(auto, unfolding(crate::specs::Commands::command_words))]
fn with_words(
    alloc: Global,
    line: Line,
    command: &CommandValue<'_>,
    reply: &GivenReply<'_>,
) -> Result<Line, OutOfMemory>
    requires { IsCommand command.now }
    ensures { IfOk result (λ l. l ≡ line ++ command_words command.now reply.now) }
{
    match command {
        CommandValue::Info(id) => {
            let line = line.text(" info ")?.hex2(*id)?.text(info_name(*id))?;
            with_info_outcome(alloc, line, reply)
        }
        CommandValue::Configure {
            idle,
            retry,
            matches,
        } => with_configure(line, *idle, *retry, *matches),
        CommandValue::Transfer(requests) => with_transfer(line, requests, reply),
        CommandValue::WriteBlock { words, .. } => {
            with_counted(line, " block of ", words.len() as u64, reply)
        }
        CommandValue::Abort(word) => with_abort(line.text(" abort ")?.hex8(*word)?, *word),
        CommandValue::Delay(time) => line.add_labelled(" delay us ", u64::from(*time)),
        CommandValue::Pins {
            output,
            select,
            wait,
        } => with_pin_words(line, *output, *select, *wait, reply),
        CommandValue::Clock(clock) => line.add_labelled(" clock Hz ", u64::from(*clock)),
        CommandValue::Line { count, bits } => with_line(line, *count, *bits),
    }
}

#[tactic(auto, unfolding(crate::specs::Commands::command_mark))]
fn command_mark(reply: &GivenReply<'_>) -> &'static str
    ensures { result.now ≡ command_mark reply.now }
{
    match reply {
        Some(_) => "  ",
        None => "? ",
    }
}

// The id that a command begins with.
fn id_byte(command: &CommandValue<'_>) -> u8
    ensures { result ≡ id_byte command.now }
{
    match command {
        CommandValue::Info(_) => 0x00,
        CommandValue::Configure { .. } => 0x04,
        CommandValue::Transfer(_) => 0x05,
        CommandValue::WriteBlock { .. } => 0x06,
        CommandValue::Abort(_) => 0x08,
        CommandValue::Delay(_) => 0x09,
        CommandValue::Pins { .. } => 0x10,
        CommandValue::Clock(_) => 0x11,
        CommandValue::Line { .. } => 0x12,
    }
}

// The line of a command.
#[tactic(auto, unfolding(crate::specs::Commands::packet_command_line))]
fn with_command_line(
    alloc: Global,
    line: Line,
    command: &CommandView<'_>,
    reply: &GivenReply<'_>,
) -> Result<Line, OutOfMemory>
    ensures { IfOk result (λ l. l ≡ line ++ packet_command_line command.now reply.now) }
{
    let value = command.value();
    let line = line.text(command_mark(reply))?.hex2(id_byte(value))?;
    with_words(alloc, line, value, reply)?.text("\n")
}

// What a reply says of the requests of its command.
#[tactic(auto, unfolding(crate::specs::Commands::requests_left))]
pub fn left_of<'a>(reply: &GivenReply<'a>) -> Left<'a>
    ensures { result ≡ requests_left reply.now }
{
    match reply {
        Some(reply) => Left {
            is_read: true,
            done: reply.count(),
            words: reply.words(),
        },
        None => Left {
            is_read: false,
            done: 0,
            words: &[],
        },
    }
}

// The lines of the requests of a command.
fn with_its_requests(
    line: Line,
    known: &mut KnownRegisters,
    command: &CommandValue<'_>,
    left: Left<'_>,
) -> Result<Line, OutOfMemory>
    requires { IsCommand command.now }
    ensures text { IfOk result (λ l. l ≡ line ++ request_lines known.old left.entry (requests_of command.now)) }
    ensures known { OnOk result (known.new ≡ after_requests known.old left.entry (requests_of command.now)) }
{
    match command {
        CommandValue::Transfer(requests) => with_requests(line, known, requests, left),
        CommandValue::WriteBlock { request, words } => {
            with_block(line, known, *request, words, left)
        }
        _ => Ok(line),
    }
}

// What is known after a command whose requests were gone through.
#[tactic(auto, unfolding(crate::specs::Commands::after_known))]
pub fn follow_reply(known: &mut KnownRegisters, command: &CommandValue<'_>, reply: &GivenReply<'_>)
    ensures { known.new ≡ after_known known.old command.now reply.now }
{
    let Some(reply) = reply else {
        known.forget();
        return;
    };
    match command {
        CommandValue::Transfer(_) | CommandValue::WriteBlock { .. } if reply.response() != 0x01 => {
            known.forget()
        }
        CommandValue::Pins { select, .. } if *select != 0 => known.forget(),
        CommandValue::Abort(word) => known.abort(*word),
        CommandValue::Line { .. } => known.forget(),
        _ => {}
    }
}

/// The lines of a command, with its reply where there is one, and what is known after it.
pub fn with_command(
    alloc: Global,
    line: Line,
    known: &mut KnownRegisters,
    command: &CommandView<'_>,
    reply: &GivenReply<'_>,
) -> Result<Line, OutOfMemory>
    ensures text { IfOk result (λ l. l ≡ line ++ command_lines known.old command.now reply.now) }
    ensures known { OnOk result (known.new ≡ after_command known.old command.now reply.now) }
{
    let line = with_command_line(alloc, line, command, reply)?;
    let line = with_its_requests(line, known, command.value(), left_of(reply))?;
    follow_reply(known, command.value(), reply);
    Ok(line)
}
