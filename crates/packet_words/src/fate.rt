//! What became of the requests of a transfer or a block.
ghost use Rattle.std.specs.Prelude.{◌≡◌};
ghost use Rattle.dap_messages.specs.Words.{words_in};
ghost use Rattle.dap_messages.specs.Requests.{kind_of};
ghost use Rattle.register_words.specs.Registers.{register_of};
ghost use Rattle.packet_words.specs.Requests.{first_read_word, words_after_first, fate_of_read, executed_fate, fate_of, left_after_request, after_done, after_request};

use dap_messages::{Request, RequestKind};
use register_words::{KnownRegisters, register_of};
use std::marker::Model;

/// What became of a request.
#[derive(Clone, Copy, Debug, PartialEq, Eq)]
pub enum Fate {
    /// It was executed, and is no normal read.
    Done,
    /// It is a normal read that was executed, and this is its word.
    Gave(u32),
    /// It is a normal read that was executed, and its word is missing.
    NoWord,
    /// It was not executed.
    Skipped,
    /// No reply says what became of it.
    NotKnown,
}

// What a reply says of the requests that are left.
#[derive(Debug, Drop)]
pub struct Left<'a> {
    // Whether there is a reply.
    pub is_read: bool,
    // How many of them were executed.
    pub done: u16,
    // The bytes of the words that they read.
    pub words: &'a [u8],
}

impl<'a> Model for Left<'a> {
    ghost use Rattle.dap_messages.specs.Words.{words_in};
    ghost use Rattle.packet_words.specs.Requests.{RequestsLeft};

    ghost Value = { RequestsLeft };

    ghost view = { λ l. record { read = l.is_read; done = l.done; words = words_in l.words.now } };
}

// The first of the words that these bytes make.
fn first_word(bytes: &[u8]) -> Option<u32>
    ensures { result ≡ first_read_word (words_in bytes.now) }
{
    match bytes {
        [a, b, c, d, ..] => Some(u32::from_le_bytes([*a, *b, *c, *d])),
        _ => None,
    }
}

// The bytes of the words after it.
fn other_words(bytes: &[u8]) -> &[u8]
    ensures { words_in result.now ≡ words_after_first (words_in bytes.now) }
{
    match bytes {
        [_, _, _, _, others @ ..] => others,
        _ => &[],
    }
}

// What became of a request that was executed.
fn fate_of_executed(request: Request, words: &[u8]) -> Fate
    ensures { result ≡ executed_fate request (words_in words.now) }
{
    if !request.is_read() {
        return Fate::Done;
    }
    match first_word(words) {
        Some(word) => Fate::Gave(word),
        None => Fate::NoWord,
    }
}

impl<'a> Left<'a> {
    // What became of the first request that is left.
    #[tactic(auto, unfolding(crate::specs::Requests::fate_of))]
    pub fn fate_of(&self, request: Request) -> Fate
        ensures { result ≡ fate_of self.now request }
    {
        if !self.is_read {
            Fate::NotKnown
        } else if self.done == 0 {
            Fate::Skipped
        } else {
            fate_of_executed(request, self.words)
        }
    }

    // What is left after it.
    #[tactic(auto, unfolding(crate::specs::Requests::left_after_request))]
    pub fn after(&self, request: Request) -> Left<'a>
        ensures { result ≡ left_after_request self.now request }
    {
        let words = if self.done != 0 && request.is_read() {
            other_words(self.words)
        } else {
            self.words
        };
        Left {
            is_read: self.is_read,
            done: self.done.saturating_sub(1),
            words,
        }
    }
}

// What is known after a request that is no normal read was executed.
#[tactic(auto, unfolding(crate::specs::Requests::after_done, register_words::specs::Registers::register_of))]
fn execute(known: &mut KnownRegisters, request: Request)
    ensures { known.new ≡ after_done (kind_of request.byte) known.old (register_of known.old.select request.byte) request.word }
{
    let register = register_of(known.select, request.byte);
    match request.kind() {
        RequestKind::Write => known.write(register, request.word),
        RequestKind::Match => known.note_match(register),
        RequestKind::Mask | RequestKind::Posted | RequestKind::Read => {}
    }
}

// What is known after a request, by what became of it.
#[tactic(auto, unfolding(crate::specs::Requests::after_request))]
pub fn follow(known: &mut KnownRegisters, request: Request, fate: Fate)
    ensures { known.new ≡ after_request known.old request fate }
{
    let register = register_of(known.select, request.byte);
    match fate {
        Fate::Gave(word) => known.read(register, Some(word)),
        Fate::NoWord => known.read(register, None),
        Fate::Done => execute(known, request),
        Fate::Skipped | Fate::NotKnown => {}
    }
}
