//! What is kept from one event of a trace to the next.
ghost use Rattle.std.specs.Prelude.{◌≡◌, IfOk, OnOk, true};
ghost use Rattle.trace_words.specs.Telling.{tell};
ghost use Rattle.trace_compare.specs.Counts.{all_counted};
ghost use Rattle.trace_compare.specs.Counting.{begin, accesses_of_event, wrong_after};
ghost use Rattle.trace_compare.specs.Exchanges.{exchange_of};
ghost use Rattle.trace_compare.specs.Coming.{CountsEvent};

use crate::counts::Counts;
use crate::exchange::Exchange;
use dap_base::OutOfMemory;
use packet_words::exchange_accesses;
use std::alloc::Global;
use std::marker::Model;
use trace_events::{Event, PacketBytes};
use trace_words::{Teller, slice_of};

/// What is kept from one event of a trace to the next.
#[derive(Drop)]
pub struct Counter {
    teller: Teller,
    counts: Counts,
    // How many packets and replies are none.
    wrong: u64,
}

impl Model for Counter {
    ghost use Rattle.trace_compare.specs.Counting.{Counting};

    ghost Value = { Counting };

    ghost view = { λ c. record { telling = c.teller; counts = c.counts; wrong = c.wrong } };
}

impl Counter {
    /// Before the first event. `OutOfMemory` where memory is refused.
    pub fn new(alloc: Global) -> Result<Counter, OutOfMemory>
        ensures { IfOk result (λ counter. counter ≡ begin) }
    {
        Ok(Counter {
            teller: Teller::new(),
            counts: Counts::new(alloc)?,
            wrong: 0,
        })
    }

    /// How many accesses there are of each place.
    pub fn counts(&self) -> &Counts
        ensures { result.now ≡ self.now.counts }
    {
        &self.counts
    }

    /// How many packets and replies are none.
    pub fn count_wrong(&self) -> u64
        ensures { result ≡ self.now.wrong }
    {
        self.wrong
    }

    // Counts the accesses of an event.
    fn count(&mut self, alloc: Global, event: &Event) -> Result<(), OutOfMemory>
        ensures { OnOk result (self.new ≡ record self.old { counts = all_counted self.old.counts (accesses_of_event self.old.telling.known event.now) }) }
    {
        let Event::Exchange { packet, reply } = event else {
            return Ok(());
        };
        let reply = slice_of(reply);
        let accesses = exchange_accesses(
            alloc,
            self.teller.known_registers(),
            packet.as_slice(),
            reply,
        )?;
        self.counts.add_all(accesses.as_slice());
        Ok(())
    }

    // Judges the event whose words came last.
    fn judge(&mut self)
        ensures { self.new ≡ record self.old { telling = record self.old.telling { good = true }; wrong = wrong_after self.old.telling.good self.old.wrong } }
    {
        if !self.teller.judge() {
            self.wrong = self.wrong.saturating_add(1);
        }
    }

    // The exchange that an event is, with these words.
    fn exchange_of(&self, event: Event, words: PacketBytes) -> Option<Exchange>
        ensures { result ≡ exchange_of self.now.telling.number words event }
    {
        match event {
            Event::Exchange { packet, reply } => Some(Exchange {
                number: self.teller.number(),
                packet,
                reply,
                words,
            }),
            Event::Stray(_) | Event::Other(_) => None,
        }
    }

    /// An event: the exchange that it is, where it is one. `OutOfMemory` where memory is refused; what is kept is then
    /// of no use.
    #[tactic(auto, using(crate::proofs::CountingLemmas::number_in))]
    pub fn event(&mut self, alloc: Global, event: Event) -> Result<Option<Exchange>, OutOfMemory>
        ensures { IfOk result (λ found. CountsEvent self.old event found self.new) }
    {
        self.count(alloc, &event)?;
        let words = self.teller.tell(alloc, &event)?;
        self.judge();
        Ok(self.exchange_of(event, words))
    }
}
