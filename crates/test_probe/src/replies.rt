//! Replies, written and read, and the responses of transfers.
ghost use Rattle.std.specs.Prelude.{◌≡◌, true};
ghost use Rattle.dap_messages.specs.Replies.{IsReply, Block, Info, Status, Transfer, reply_value};

use dap_messages::{Reply, Response, number_of, packet_view, write_reply};
use dap_replies::{ReplyView, reply_view};
use std::alloc::{AllocError, Global};
use test_words::{RowError, RowWords, Trial, bytes_of, put_bytes};

// The most bytes of a reply of the table.
const MOST: usize = 32;

// Whether the bytes are a packet count from 1 or a packet size from 64.
fn is_info(bytes: &[u8]) -> bool
    ensures { result ≡ true → IsReply (Info bytes.now) }
{
    match bytes {
        [count] => {
            let _count = *count;
            number_of(bytes) >= 1
        }
        [low, high] => {
            let _size = (*low, *high);
            number_of(bytes) >= 64
        }
        _ => false,
    }
}

// Whether it is a status 0 to a command that is answered by one.
fn is_status(id: u8, status: u8) -> bool
    ensures { result ≡ true → IsReply (Status id status) }
{
    (id == 0x04 || id == 0x08 || id == 0x09 || id == 0x11 || id == 0x12) && status == 0
}

// Whether it is a response, with two words of at least as many requests.
fn is_transfer(count: u8, response: u8, words: &[u32]) -> bool
    ensures { result ≡ true → IsReply (Transfer count response words.now) }
{
    match words {
        [first, second] => {
            let _two = (*first, *second);
            count >= 2 && Response::from_code(response).is_some()
        }
        _ => false,
    }
}

// Whether it is a response to a block of writes.
fn is_block(count: u16, response: u8) -> bool
    ensures { result ≡ true → IsReply (Block count response) }
{
    match Response::from_code(response) {
        Some(Response::Good) => true,
        Some(Response::Wait) => true,
        Some(Response::Fault) => true,
        Some(Response::Mismatch) | None => false,
    }
}

// Whether a reply is in its ranges. Of replies to a Transfer only those with two words are.
fn is_reply(reply: &Reply<'_>) -> bool
    ensures { result ≡ true → IsReply (reply_value reply.now) }
{
    match *reply {
        Reply::Info(bytes) => is_info(bytes),
        Reply::Status(id, status) => is_status(id, status),
        Reply::Pins(_levels) => true,
        Reply::Transfer {
            count,
            response,
            words,
        } => is_transfer(count, response, words),
        Reply::Block { count, response } => is_block(count, response),
    }
}

// Whether the reply is not written, and nothing with it, where there is less room than this.
fn needs_room(reply: &Reply<'_>, size: usize) -> bool
    requires { IsReply (reply_value reply.now) }
{
    for short in 0..size {
        let mut out = [0xEE; MOST];
        if short >= MOST || write_reply(reply, &mut out[..short]).is_some() || out != [0xEE; MOST] {
            return false;
        }
    }
    true
}

// Writes a reply, and says where more is written than it, and where it is written though there is no room.
fn show_reply(alloc: Global, reply: &Reply<'_>) -> Result<String, RowError> {
    if !is_reply(reply) {
        return Err(RowError::Unreadable);
    }
    let mut out = [0xEE; MOST];
    let size = write_reply(reply, &mut out).unwrap_or(MOST);
    if size >= MOST {
        return Err(RowError::Unreadable);
    }
    let mut text = String::new(alloc);
    put_bytes(&mut text, &out[..size])?;
    if out[size] != 0xEE {
        text.push_str(", goes on")?;
    }
    if !needs_room(reply, size) {
        text.push_str(", without room")?;
    }
    Ok(text)
}

// A reply to DAP_Info with these bytes.
fn info(alloc: Global, text: &str) -> Result<String, RowError> {
    let bytes = bytes_of(alloc, text)?;
    show_reply(alloc, &Reply::Info(bytes.as_slice()))
}

// A reply to DAP_Transfer with two words: count, response, words.
fn transfer(alloc: Global, words: &mut RowWords<'_>) -> Result<String, RowError> {
    let count = words.number8()?;
    let response = words.number8()?;
    let two = [words.number32()?, words.number32()?];
    show_reply(
        alloc,
        &Reply::Transfer {
            count,
            response,
            words: &two,
        },
    )
}

/// Replies and their bytes: `info BYTES`, `status ID STATUS`, `pins LEVELS`, `transfer COUNT RESPONSE WORD WORD`, `block COUNT
/// RESPONSE`.
#[derive(Drop)]
pub struct WrittenReplies;

impl Trial for WrittenReplies {
    fn begin(_alloc: Global, _form: &str) -> Result<WrittenReplies, RowError> {
        Ok(WrittenReplies)
    }

    fn answer(&mut self, alloc: Global, input: &str) -> Result<String, RowError> {
        let mut words = RowWords::new(input);
        let reply = match words.word()? {
            "info" => return info(alloc, words.take_rest()),
            "transfer" => return transfer(alloc, &mut words),
            "status" => Reply::Status(words.number8()?, words.number8()?),
            "pins" => Reply::Pins(words.number8()?),
            "block" => Reply::Block {
                count: words.number16()?,
                response: words.number8()?,
            },
            _ => return Err(RowError::Unreadable),
        };
        words.end()?;
        show_reply(alloc, &reply)
    }
}

/// Response bytes, and the response of each with its byte.
#[derive(Drop)]
pub struct Responses;

impl Trial for Responses {
    fn begin(_alloc: Global, _form: &str) -> Result<Responses, RowError> {
        Ok(Responses)
    }

    fn answer(&mut self, alloc: Global, input: &str) -> Result<String, RowError> {
        let mut words = RowWords::new(input);
        let code = words.number8()?;
        words.end()?;
        let mut text = String::new(alloc);
        match Response::from_code(code) {
            Some(response) => {
                let code = response.code();
                write!(text, "{response:?} {code:#04X}")?;
            }
            None => text.push_str("none")?,
        }
        Ok(text)
    }
}

// Writes what the view of a reply shows: the count, the response, the bytes of its words, and its whole words.
fn put_view(text: &mut String, view: &ReplyView<'_>) -> Result<(), AllocError> {
    let count = view.count();
    let response = view.response();
    write!(text, "{count}, {response:02X}")?;
    if !view.words().is_empty() {
        text.push_str(": ")?;
        put_bytes(text, view.words())?;
    }
    for index in 0..256 {
        let Some(word) = view.word(index) else {
            return Ok(());
        };
        write!(text, " is {word:#X}")?;
    }
    Ok(())
}

/// Replies to the packet of one command that the form is, and what is shown of each, or its first fault.
#[derive(Drop)]
pub struct ReplyViews {
    packet: Vec<u8>,
}

impl Trial for ReplyViews {
    fn begin(alloc: Global, form: &str) -> Result<ReplyViews, RowError> {
        let packet = bytes_of(alloc, form)?;
        Ok(ReplyViews { packet })
    }

    fn answer(&mut self, alloc: Global, input: &str) -> Result<String, RowError> {
        let reply = bytes_of(alloc, input)?;
        let mut text = String::new(alloc);
        let Ok(packet) = packet_view(self.packet.as_slice()) else {
            return Err(RowError::Unreadable);
        };
        let command = packet.command(0).ok_or(RowError::Unreadable)?;
        match reply_view(&command, reply.as_slice()) {
            Ok(view) => put_view(&mut text, &view)?,
            Err(fault) => write!(text, "{fault:?}")?,
        }
        Ok(text)
    }
}
