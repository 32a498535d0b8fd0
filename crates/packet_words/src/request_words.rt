//! The words of requests.
ghost use Rattle.std.specs.Prelude.{◌≡◌, ◌++◌, ◌<◌, ◌^◌, IfOk, OnOk, codes, length, option_map};
ghost use Rattle.text_lines.specs.Hex.{hex2};
ghost use Rattle.packet_words.specs.Requests.{mark, subject, read_part, value_part, address_words, banked_address, csw_note, port_note};
ghost use Rattle.packet_words.specs.Requests.{note, match_note, done_note, request_note, line_of_request, request_line};
ghost use Rattle.packet_words.specs.Requests.{request_lines, after_requests};
ghost use Rattle.dap_messages.specs.Requests.{block_requests};

use crate::fate::{Fate, Left, follow};
use dap_base::OutOfMemory;
use dap_messages::{Request, RequestKind, Requests, WordBytes};
use register_words::{
    KnownPort, KnownRegisters, Register, register_of, with_abort, with_csw, with_ctrl_stat,
    with_register, with_select,
};
use target_machine::registers::{BD_BANK, CSW, DRW};
use text_lines::Line;

#[tactic(auto, unfolding(crate::specs::Requests::mark))]
fn mark(fate: Fate) -> &'static str
    ensures { result.now ≡ mark fate }
{
    match fate {
        Fate::Done | Fate::Gave(_) | Fate::NoWord => "    ",
        Fate::Skipped => "  - ",
        Fate::NotKnown => "  ? ",
    }
}

// What is accessed.
#[tactic(auto, unfolding(crate::specs::Requests::subject))]
fn with_subject(
    line: Line,
    kind: RequestKind,
    known: &KnownRegisters,
    byte: u8,
) -> Result<Line, OutOfMemory>
    ensures { IfOk result (λ l. l ≡ line ++ subject kind known.now byte) }
{
    match kind {
        RequestKind::Mask => line.text("match mask"),
        RequestKind::Write | RequestKind::Match | RequestKind::Posted | RequestKind::Read => {
            with_register(line, register_of(known.select, byte))
        }
    }
}

// A normal read, with its word where it came.
#[tactic(auto, unfolding(crate::specs::Requests::read_part))]
fn with_read(line: Line, fate: Fate) -> Result<Line, OutOfMemory>
    ensures { IfOk result (λ l. l ≡ line ++ read_part fate) }
{
    match fate {
        Fate::Gave(word) => line.text(" -> ")?.hex8(word),
        Fate::NoWord => line.text(" -> no word"),
        Fate::Done | Fate::Skipped | Fate::NotKnown => line.text(" read"),
    }
}

// What is written, matched or read.
#[tactic(auto, unfolding(crate::specs::Requests::value_part))]
fn with_value(line: Line, kind: RequestKind, word: u32, fate: Fate) -> Result<Line, OutOfMemory>
    ensures { IfOk result (λ l. l ≡ line ++ value_part kind word fate) }
{
    match kind {
        RequestKind::Write | RequestKind::Mask => line.text(" = ")?.hex8(word),
        RequestKind::Match => line.text(" matches ")?.hex8(word),
        RequestKind::Posted | RequestKind::Read => with_read(line, fate),
    }
}

#[tactic(auto, unfolding(crate::specs::Requests::address_words))]
fn with_address(line: Line, address: Option<u32>) -> Result<Line, OutOfMemory>
    ensures { IfOk result (λ l. l ≡ line ++ address_words address) }
{
    match address {
        Some(address) => line.text(" [")?.hex8(address)?.text("]"),
        None => Ok(line),
    }
}

// The address of an access of BD0 to BD3.
fn banked_address(register: u8, tar: u32) -> u32
    ensures { result ≡ banked_address register tar }
{
    tar / 16 * 16 + u32::from(register % 16)
}

#[tactic(auto, unfolding(crate::specs::Requests::csw_note))]
fn with_csw_note(line: Line, value: Option<u32>) -> Result<Line, OutOfMemory>
    ensures { IfOk result (λ l. l ≡ line ++ csw_note value) }
{
    match value {
        Some(word) => with_csw(line, word),
        None => Ok(line),
    }
}

#[tactic(auto, unfolding(crate::specs::Requests::address_words))]
fn with_banked(line: Line, register: u8, tar: Option<u32>) -> Result<Line, OutOfMemory>
    ensures { IfOk result (λ l. l ≡ line ++ address_words (option_map (banked_address register) tar)) }
{
    match tar {
        Some(tar) => with_address(line, Some(banked_address(register, tar))),
        None => Ok(line),
    }
}

#[tactic(auto, unfolding(crate::specs::Requests::port_note))]
fn with_port_note(
    line: Line,
    port: KnownPort,
    register: u8,
    value: Option<u32>,
) -> Result<Line, OutOfMemory>
    ensures { IfOk result (λ l. l ≡ line ++ port_note port register value) }
{
    if register == CSW {
        with_csw_note(line, value)
    } else if register == DRW {
        with_address(line, port.tar)
    } else if register / 16 == BD_BANK {
        with_banked(line, register, port.tar)
    } else {
        Ok(line)
    }
}

// What is known of a value of a register.
#[tactic(auto, unfolding(crate::specs::Requests::note))]
fn with_note(
    line: Line,
    known: &KnownRegisters,
    register: Register,
    value: Option<u32>,
) -> Result<Line, OutOfMemory>
    ensures { IfOk result (λ l. l ≡ line ++ note known.now register value) }
{
    match (register, value) {
        (Register::CtrlStat, Some(word)) => with_ctrl_stat(line, word),
        (Register::Abort, Some(word)) => with_abort(line, word),
        (Register::Select, Some(word)) => with_select(line, word),
        (Register::Ap { ap, register }, value) => {
            with_port_note(line, known.port(ap), register, value)
        }
        _ => Ok(line),
    }
}

#[tactic(auto, unfolding(crate::specs::Requests::match_note))]
fn with_match_note(
    line: Line,
    known: &KnownRegisters,
    register: Register,
    word: u32,
) -> Result<Line, OutOfMemory>
    ensures { IfOk result (λ l. l ≡ line ++ match_note known.now register word) }
{
    match (register, word) {
        (Register::Dpidr, 0) => line.text(" guard"),
        (Register::Dpidr, _) => Ok(line),
        (register, word) => with_note(line, known, register, Some(word)),
    }
}

// The same for a request that is no normal read and was executed.
#[tactic(auto, unfolding(crate::specs::Requests::done_note))]
fn with_done_note(
    line: Line,
    kind: RequestKind,
    known: &KnownRegisters,
    register: Register,
    word: u32,
) -> Result<Line, OutOfMemory>
    ensures { IfOk result (λ l. l ≡ line ++ done_note kind known.now register word) }
{
    match kind {
        RequestKind::Write => with_note(line, known, register, Some(word)),
        RequestKind::Match => with_match_note(line, known, register, word),
        RequestKind::Mask | RequestKind::Posted | RequestKind::Read => Ok(line),
    }
}

// The same for any request, by what became of it.
#[tactic(auto, unfolding(crate::specs::Requests::request_note))]
fn with_request_note(
    line: Line,
    known: &KnownRegisters,
    request: Request,
    fate: Fate,
) -> Result<Line, OutOfMemory>
    ensures { IfOk result (λ l. l ≡ line ++ request_note known.now request fate) }
{
    let register = register_of(known.select, request.byte);
    match fate {
        Fate::Gave(word) => with_note(line, known, register, Some(word)),
        Fate::NoWord => with_note(line, known, register, None),
        Fate::Done => with_done_note(line, request.kind(), known, register, request.word),
        Fate::Skipped => line.text(" not done"),
        Fate::NotKnown => Ok(line),
    }
}

// The mark and the byte.
fn with_mark(line: Line, byte: u8, fate: Fate) -> Result<Line, OutOfMemory>
    ensures { IfOk result (λ l. l ≡ line ++ mark fate ++ hex2 byte ++ codes " ") }
{
    line.text(mark(fate))?.hex2(byte)?.text(" ")
}

// The line of a request of this kind.
#[tactic(auto, unfolding(crate::specs::Requests::line_of_request))]
fn with_line(
    line: Line,
    kind: RequestKind,
    known: &KnownRegisters,
    request: Request,
    fate: Fate,
) -> Result<Line, OutOfMemory>
    ensures { IfOk result (λ l. l ≡ line ++ line_of_request kind known.now request fate) }
{
    let line = with_mark(line, request.byte, fate)?;
    let line = with_subject(line, kind, known, request.byte)?;
    let line = with_value(line, kind, request.word, fate)?;
    let line = with_request_note(line, known, request, fate)?;
    line.text("\n")
}

// The line of a request.
fn with_request(
    line: Line,
    known: &KnownRegisters,
    request: Request,
    fate: Fate,
) -> Result<Line, OutOfMemory>
    ensures { IfOk result (λ l. l ≡ line ++ request_line known.now request fate) }
{
    with_line(line, request.kind(), known, request, fate)
}

/// The lines of the requests of a transfer, where this is left of its reply.
pub fn with_requests(
    line: Line,
    known: &mut KnownRegisters,
    requests: &Requests<'_>,
    left: Left<'_>,
) -> Result<Line, OutOfMemory>
    ensures text { IfOk result (λ l. l ≡ line ++ request_lines known.old left.entry requests.now) }
    ensures known { OnOk result (known.new ≡ after_requests known.old left.entry requests.now) }
{
    let mut line = line;
    let mut left = left;
    let mut coming = requests.iter();
    while let Some(request) = coming.next() {
        let fate = left.fate_of(request);
        line = with_request(line, known, request, fate)?;
        follow(known, request, fate);
        left = left.after(request);
    }
    Ok(line)
}

/// The lines of the words of a block, each as a request of this byte.
pub fn with_block(
    line: Line,
    known: &mut KnownRegisters,
    byte: u8,
    words: &WordBytes<'_>,
    left: Left<'_>,
) -> Result<Line, OutOfMemory>
    requires { length words.now < 2 ^ 16 }
    ensures text { IfOk result (λ l. l ≡ line ++ request_lines known.old left.entry (block_requests byte words.now)) }
    ensures known { OnOk result (known.new ≡ after_requests known.old left.entry (block_requests byte words.now)) }
{
    let mut line = line;
    let mut left = left;
    for index in 0..words.len() as u16 {
        let Some(word) = words.get(index) else {
            return Ok(line);
        };
        let request = Request { byte, word };
        let fate = left.fate_of(request);
        line = with_request(line, known, request, fate)?;
        follow(known, request, fate);
        left = left.after(request);
    }
    Ok(line)
}
