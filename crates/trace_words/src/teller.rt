//! The words of the events of a trace.
ghost use Rattle.std.specs.Prelude.{◌≡◌, IfOk, true};
ghost use Rattle.std.specs.Option.{option_copied};
ghost use Rattle.packet_words.specs.Exchange.{exchange};
ghost use Rattle.trace_words.specs.Telling.{first_telling, next_exchange_number, told_said, stray_line, tell};
ghost use Rattle.trace_words.specs.Tells.{Tells};

use dap_base::OutOfMemory;
use packet_words::exchange_words;
use register_words::KnownRegisters;
use std::alloc::Global;
use std::marker::Model;
use text_lines::Line;
use trace_events::{Event, PacketBytes};

/// The words of events, one after the other, with what is kept from one to the next.
#[derive(Debug, Drop)]
pub struct Teller {
    // The number of the last exchange.
    number: u64,
    // What is known of the registers.
    known: KnownRegisters,
    // Whether each packet and reply so far is one.
    is_good: bool,
}

impl Model for Teller {
    ghost use Rattle.trace_words.specs.Telling.{Telling};

    ghost Value = { Telling };

    ghost view = { λ t. record { number = t.number; known = t.known; good = t.is_good } };
}

/// The bytes of a reply, where there is one, lent without a copy.
pub fn slice_of(reply: &Option<PacketBytes>) -> Option<&[u8]>
    ensures { option_copied result ≡ reply.now }
{
    match reply {
        Some(reply) => Some(reply.as_slice()),
        None => None,
    }
}

// The lines of a reply that no packet waits for.
fn stray_line(alloc: Global, reply: &[u8]) -> Result<PacketBytes, OutOfMemory>
    ensures { IfOk result (λ text. text ≡ stray_line reply.now) }
{
    let Ok(digits) = hex::encode(alloc, reply) else {
        return Err(OutOfMemory);
    };
    let line = Line::begin(alloc, "< ")?
        .text(digits.as_str())?
        .text("\nno packet for this reply\n")?;
    PacketBytes::copy_of(alloc, line.as_bytes())
}

impl Teller {
    /// Before the first event.
    pub fn new() -> Teller
        ensures { result ≡ first_telling }
    {
        Teller {
            number: 0,
            known: KnownRegisters::new(),
            is_good: true,
        }
    }

    /// The number of the last exchange, counted from 1; 0 before the first.
    pub fn number(&self) -> u64
        ensures { result ≡ self.now.number }
    {
        self.number
    }

    /// What is known of the registers.
    pub fn known_registers(&self) -> &KnownRegisters
        ensures { result.now ≡ self.now.known }
    {
        &self.known
    }

    /// Whether each packet and reply so far is one.
    pub fn is_good(&self) -> bool
        ensures { result ≡ self.now.good }
    {
        self.is_good
    }

    /// Whether each packet and reply is one since the last such call, or since the first event. Those to come are judged anew.
    pub fn judge(&mut self) -> bool
        ensures value { result ≡ self.old.good }
        ensures telling { self.new ≡ record self.old { good = true } }
    {
        std::mem::replace(&mut self.is_good, true)
    }

    // The words of an exchange.
    fn exchange(
        &mut self,
        alloc: Global,
        packet: &[u8],
        reply: Option<&[u8]>,
    ) -> Result<PacketBytes, OutOfMemory>
        ensures { IfOk result (λ text. Tells (told_said self.old (exchange self.old.known (next_exchange_number self.old.number) packet.now (option_copied reply.entry))) text self.new) }
    {
        self.number = self.number.saturating_add(1);
        let said = exchange_words(alloc, &mut self.known, self.number, packet, reply)?;
        self.is_good = self.is_good && said.is_good;
        PacketBytes::copy_of(alloc, said.line.as_bytes())
    }

    /// The words of an event, after those before it. `OutOfMemory` where memory is refused; what is kept is then of no use.
    pub fn tell(&mut self, alloc: Global, event: &Event) -> Result<PacketBytes, OutOfMemory>
        ensures { IfOk result (λ text. Tells (tell self.old event.now) text self.new) }
    {
        match event {
            Event::Exchange { packet, reply } => {
                self.exchange(alloc, packet.as_slice(), slice_of(reply))
            }
            Event::Stray(reply) => {
                self.is_good = false;
                stray_line(alloc, reply.as_slice())
            }
            Event::Other(bytes) => PacketBytes::copy_of(alloc, bytes.as_slice()),
        }
    }
}
