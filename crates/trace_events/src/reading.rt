//! What the lines of a trace say.
ghost use Rattle.std.specs.Prelude.{◌≡◌, ◌++◌, ◌∷◌, IfOk, [], OnOk, Some};
ghost use Rattle.trace_events.specs.Inputs.{GivesFirstItem};
ghost use Rattle.trace_events.specs.Readings.{first_reading, answer, take_packet, take_entry, step_at_line_end, take_byte, step_at_last_line, end_events};
ghost use Rattle.trace_events.specs.Steps.{Steps};

use crate::bytes::PacketBytes;
use crate::entry::{PacketOrReply, entry_in};
use crate::event::Event;
use dap_base::OutOfMemory;
use std::alloc::Global;
use std::marker::Model;

// The most packets that wait for their replies.
const MOST_WAITING: usize = 255;

// The longest line that may be a packet or a reply.
const LONGEST: usize = 4096;

// What is kept from one byte to the next.
#[derive(Drop)]
pub struct Reading {
    // The packets that have no reply yet, the oldest first.
    waiting: Vec<PacketBytes>,
    // The line so far.
    line: PacketBytes,
    // Whether it is longer than the longest, and is passed on as it comes.
    is_long: bool,
}

impl Model for Reading {
    ghost use Rattle.trace_events.specs.Readings.{TraceReading};

    ghost Value = { TraceReading };

    ghost view = { λ r. record { waiting = r.waiting.items; line = r.line; long = r.is_long } };
}

// A line that is neither a packet nor a reply, with the bytes that ended it.
fn other_event(line: PacketBytes, ended: &[u8]) -> Result<Option<Event>, OutOfMemory>
    ensures { IfOk result (λ event. event ≡ Some (Event.Other (line ++ ended.now))) }
{
    let mut line = line;
    line.push(ended)?;
    Ok(Some(Event::Other(line)))
}

impl Reading {
    pub fn new(alloc: Global) -> Reading
        ensures { result ≡ first_reading }
    {
        Reading {
            waiting: Vec::new(alloc),
            line: PacketBytes::new(alloc),
            is_long: false,
        }
    }

    // A reply, or the end of waiting for one, for the oldest packet that waits.
    #[tactic(auto, unfolding(crate::specs::Readings::answer))]
    fn answer(&mut self, reply: Option<PacketBytes>) -> Option<Event>
        ensures { Steps (answer self.old reply) result self.new }
    {
        if self.waiting.is_empty() {
            return Some(Event::Stray(reply?));
        }
        let packet = self.waiting.remove(0);
        Some(Event::Exchange { packet, reply })
    }

    // One packet more waits.
    fn wait(&mut self, packet: PacketBytes) -> Result<(), OutOfMemory>
        ensures { OnOk result (self.new ≡ record self.old { waiting = self.old.waiting ++ packet ∷ [] }) }
    {
        self.waiting.push(packet).map_err(|_| OutOfMemory)
    }

    // A packet waits for its reply.
    #[tactic(auto, unfolding(crate::specs::Readings::take_packet))]
    fn packet(&mut self, packet: PacketBytes) -> Result<Option<Event>, OutOfMemory>
        ensures { IfOk result (λ event. Steps (take_packet self.old packet) event self.new) }
    {
        if self.waiting.len() < MOST_WAITING {
            self.wait(packet)?;
            return Ok(None);
        }
        let event = self.answer(None);
        self.wait(packet)?;
        Ok(event)
    }

    fn entry(&mut self, entry: PacketOrReply) -> Result<Option<Event>, OutOfMemory>
        ensures { IfOk result (λ event. Steps (take_entry self.old (entry.is_reply, entry.bytes)) event self.new) }
    {
        let PacketOrReply { is_reply, bytes } = entry;
        if is_reply {
            Ok(self.answer(Some(bytes)))
        } else {
            self.packet(bytes)
        }
    }

    // The line so far is taken out.
    fn take_line(&mut self, alloc: Global) -> PacketBytes
        ensures line { result ≡ self.old.line }
        ensures rest { self.new ≡ record self.old { line = [] } }
    {
        std::mem::replace(&mut self.line, PacketBytes::new(alloc))
    }

    // A line ends, by these bytes.
    #[tactic(auto, unfolding(crate::specs::Readings::step_at_line_end))]
    fn end_line(&mut self, alloc: Global, ended: &[u8]) -> Result<Option<Event>, OutOfMemory>
        ensures { IfOk result (λ event. Steps (step_at_line_end self.old self.old.line ended.now) event self.new) }
    {
        let line = self.take_line(alloc);
        if self.is_long {
            self.is_long = false;
            return other_event(line, ended);
        }
        match entry_in(alloc, line.as_slice())? {
            Some(entry) => self.entry(entry),
            None => other_event(line, ended),
        }
    }

    // One byte.
    #[tactic(auto, unfolding(crate::specs::Readings::take_byte))]
    pub fn byte(&mut self, alloc: Global, byte: u8) -> Result<Option<Event>, OutOfMemory>
        ensures { IfOk result (λ event. Steps (take_byte self.old byte) event self.new) }
    {
        if byte == b'\n' {
            return self.end_line(alloc, b"\n");
        }
        self.line.push(&[byte])?;
        if self.line.len() <= LONGEST {
            return Ok(None);
        }
        self.is_long = true;
        Ok(Some(Event::Other(self.take_line(alloc))))
    }

    // A line without a line feed.
    #[tactic(auto, unfolding(crate::specs::Readings::step_at_last_line))]
    fn last_line(&mut self, alloc: Global) -> Result<Option<Event>, OutOfMemory>
        ensures { IfOk result (λ event. Steps (step_at_last_line self.old) event self.new) }
    {
        if self.line.is_empty() {
            return Ok(None);
        }
        self.end_line(alloc, b"")
    }

    // The next event at the end of all bytes.
    #[tactic(auto, using(crate::proofs::ReadingLemmas::end_some, crate::proofs::ReadingLemmas::end_none))]
    pub fn end(&mut self, alloc: Global) -> Result<Option<Event>, OutOfMemory>
        ensures { IfOk result (λ event. GivesFirstItem (end_events self.old) event (end_events self.new)) }
    {
        match self.last_line(alloc)? {
            Some(event) => Ok(Some(event)),
            None => Ok(self.answer(None)),
        }
    }
}
