//! Flights over one bench, one after the other.
ghost use Rattle.std.specs.Prelude.{◌≡◌, ◌≤◌, ◌⊎◌, true, None};
ghost use Rattle.probe_core.specs.Ranges.{AreLimits};
ghost use Rattle.flight_forms.specs.Packing.{IsTaken};
ghost use Rattle.batch_packer.specs.Exchanges.{IsOpen};
ghost use Rattle.batch_packer.specs.Flying.{IsWithin};
ghost use Rattle.batch_packer.specs.SlotList.{slot_room};

use batch_packer::{Config, Flight, FlightEnd, PollAsk, Slots};
use dap_messages::Command;
use probe_core::{Bench, Limits};
use std::alloc::{AllocError, Global};
use target_machine::RegAccess;
use test_benches::{command_of, is_command, put_log};
use test_words::{RowError, RowWords, access_of, accesses_of, put_bytes};

// The settings of the transfers.
const CONFIG: Config = Config {
    idle: 0,
    retry: 100,
};

/// A flight over a bench, which has room for its packets, and the values of its reads.
#[derive(Drop)]
pub struct Session<B: Bench> {
    flight: Flight,
    slots: Slots,
    bench: B,
    // While the flight can be used, or used again, the bench holds no packet, and no reply waits.
    ghost within: { IsWithin flight.limits (B.reported bench).limits },
    ghost room: { slot_room flight.limits ≤ slots.room },
    ghost usable: { flight.end ≡ None → IsOpen (B.reported bench) },
    ghost resumable: { flight.resumable ≡ true → IsOpen (B.reported bench) },
}

// Whether a flight takes the access.
fn is_taken(access: RegAccess) -> bool
    ensures { result ≡ true → IsTaken access }
{
    match (access.ap, access.read) {
        (true, _) => true,
        (false, true) => access.addr == 0x0 || access.addr == 0x4,
        (false, false) => matches!(access.addr, 0x0 | 0x4 | 0x8 | 0xC),
    }
}

// Writes how a flight ended.
fn put_end(text: &mut String, end: FlightEnd) -> Result<(), AllocError> {
    match end {
        FlightEnd::Cut(cut) => {
            let performed = cut.performed;
            let confirmed = cut.confirmed;
            let response = cut.response;
            write!(
                text,
                "cut, performed {performed}, confirmed {confirmed}, response {response:02X}"
            )
        }
        FlightEnd::BenchFault => text.push_str("bench fault"),
        FlightEnd::ReplyBad => text.push_str("bad reply"),
    }
}

// Writes bytes that were kept, where there are some.
fn put_kept(text: &mut String, name: &str, bytes: &[u8]) -> Result<(), AllocError> {
    if bytes.is_empty() {
        return Ok(());
    }
    write!(text, "; {name} ")?;
    put_bytes(text, bytes)
}

impl<B: Bench + Drop> Session<B> {
    /// A flight with these limits, which are the bench's.
    pub fn new(alloc: Global, bench: B, limits: Limits) -> Result<Session<B>, RowError>
        requires limits { AreLimits limits }
        requires same { limits ≡ (B.reported bench).limits }
        requires idle { IsOpen (B.reported bench) }
    {
        let flight = Flight::new(alloc, limits)?;
        let slots = Slots::new(alloc, limits)?;
        Ok(Session {
            flight,
            slots,
            bench,
        })
    }
}

impl<B: Bench> Session<B> {
    // Pushes accesses. An error where there is no room for one.
    fn push(&mut self, accesses: &[RegAccess]) -> Result<(), RowError> {
        for access in accesses {
            if !is_taken(*access) || !self.flight.room(*access) {
                return Err(RowError::Unreadable);
            }
            self.flight.push(*access);
        }
        Ok(())
    }

    // Writes the values at so many places, and the one after them where there is one.
    fn put_values(&self, text: &mut String, count: u32) -> Result<(), AllocError> {
        for place in 0..count {
            match self.slots.get(place) {
                Some(value) => write!(text, " {value:#X}")?,
                None => text.push_str(" _")?,
            }
        }
        match self.slots.get(count) {
            Some(value) => write!(text, " and {value:#X}"),
            None => Ok(()),
        }
    }

    // Writes the packet and the reply at which the flight ended, and how many accesses it has.
    fn put_rest(&self, text: &mut String) -> Result<(), AllocError> {
        put_kept(text, "sent", self.flight.sent())?;
        put_kept(text, "got", self.flight.got())?;
        match self.flight.count() {
            0 => Ok(()),
            count => write!(text, "; {count} left"),
        }
    }

    // `send ACCESSES`: the flight is sent with these accesses more.
    fn send(&mut self, alloc: Global, input: &str, text: &mut String) -> Result<(), RowError> {
        let accesses = accesses_of(alloc, input)?;
        let count = u32::try_from(accesses.len()).map_err(|_| RowError::Unreadable)?;
        self.push(accesses.as_slice())?;
        match self.flight.send(&mut self.bench, &mut self.slots) {
            Ok(()) => {
                text.push_str("ok")?;
                self.put_values(text, count)?;
            }
            Err(end) => put_end(text, end)?,
        }
        self.put_rest(text)?;
        Ok(())
    }

    // `fill ACCESS`: the access is pushed as long as there is room; how often.
    fn fill(&mut self, access: RegAccess, text: &mut String) -> Result<(), RowError> {
        if !is_taken(access) {
            return Err(RowError::Unreadable);
        }
        for _ in 0..20_000 {
            if !self.flight.room(access) {
                break;
            }
            self.flight.push(access);
        }
        let count = self.flight.count();
        write!(text, "{count}")?;
        Ok(())
    }

    // `resume`: the flight is used again.
    fn resume(&mut self, text: &mut String) -> Result<(), RowError> {
        if self.flight.can_resume() {
            self.flight.resume();
            text.push_str("resumed")?;
        } else {
            text.push_str("no")?;
        }
        self.put_rest(text)?;
        Ok(())
    }

    // `poll MASK VALUE TURNS`: whether CTRL/STAT came to be the value under the mask.
    fn poll(&mut self, words: &mut RowWords<'_>, text: &mut String) -> Result<(), RowError> {
        let ask = PollAsk {
            mask: words.number32()?,
            value: words.number32()?,
            turns: words.number32()?,
        };
        if ask.turns < 1 || ask.turns > 0x1_0000 || self.flight.count() != 0 {
            return Err(RowError::Unreadable);
        }
        match self.flight.poll(&mut self.bench, CONFIG, ask) {
            Ok(matched) => write!(text, "{matched}")?,
            Err(end) => put_end(text, end)?,
        }
        self.put_rest(text)?;
        Ok(())
    }

    // `command NAME NUMBERS`: what a command answers.
    fn command(&mut self, words: &mut RowWords<'_>, text: &mut String) -> Result<(), RowError> {
        let command = command_of(words)?;
        if let Command::Transfer(_) | Command::WriteBlock { .. } = command {
            return Err(RowError::Unreadable);
        }
        if !is_command(&command) || self.flight.count() != 0 {
            return Err(RowError::Unreadable);
        }
        match self.flight.command(&mut self.bench, &command) {
            Ok(number) => write!(text, "{number:#X}")?,
            Err(end) => put_end(text, end)?,
        }
        self.put_rest(text)?;
        Ok(())
    }

    /// One step.
    pub fn step(&mut self, alloc: Global, input: &str) -> Result<String, RowError> {
        let mut words = RowWords::new(input);
        let mut text = String::new(alloc);
        match words.word()? {
            "send" => self.send(alloc, words.take_rest(), &mut text)?,
            "fill" => self.fill(access_of(&mut words)?, &mut text)?,
            "resume" => self.resume(&mut text)?,
            "poll" => self.poll(&mut words, &mut text)?,
            "command" => self.command(&mut words, &mut text)?,
            "show" => put_log(&mut self.bench, &mut words, &mut text)?,
            _ => return Err(RowError::Unreadable),
        }
        words.end()?;
        Ok(text)
    }
}
