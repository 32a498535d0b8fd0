//! The exchanges of a trace, from a source.
ghost use Rattle.std.specs.Prelude.{◌≡◌, IfOk, OnOk};
ghost use Rattle.text_lines.specs.Causes.{NamesFault};
ghost use Rattle.trace_compare.specs.Coming.{first_coming, GivesExchange, TakesAll};

use crate::counter::Counter;
use crate::exchange::Exchange;
use dap_base::{OutOfMemory, Source};
use std::alloc::Global;
use std::marker::Model;
use trace_events::{Events, ReadEnd};

/// The exchanges of a trace, as they come from a source. Contracts see what is kept from one to the next.
#[derive(Drop)]
pub struct Trace {
    events: Events,
    counter: Counter,
}

impl Model for Trace {
    ghost use Rattle.trace_compare.specs.Coming.{Coming};

    ghost Value = { Coming };

    ghost view = { λ t. record { place = t.events; counting = t.counter } };
}

impl Trace {
    /// Before the first exchange. `OutOfMemory` where memory is refused.
    pub fn new(alloc: Global) -> Result<Trace, OutOfMemory>
        ensures { IfOk result (λ trace. trace ≡ first_coming) }
    {
        Ok(Trace {
            events: Events::new(alloc),
            counter: Counter::new(alloc)?,
        })
    }

    /// What is counted of the exchanges that came.
    pub fn counter(&self) -> &Counter
        ensures { result.now ≡ self.now.counting }
    {
        &self.counter
    }

    /// The next exchange, which this source gives: always the same one. `None` at the end of the trace.
    ///
    /// `ReadFault` where the source failed, and `OutOfMemory` where memory is refused. No exchange comes after that.
    #[tactic(auto, using(crate::proofs::ComingLemmas::ahead_start, crate::proofs::ComingLemmas::ahead_on, crate::proofs::ComingLemmas::ahead_exchange, crate::proofs::ComingLemmas::ahead_end))]
    pub fn next<S: Source>(
        &mut self,
        alloc: Global,
        source: &mut S,
    ) -> Result<Option<Exchange>, ReadEnd>
        ensures next { IfOk result (λ found. GivesExchange self.old self.new (S.left source.old) (S.left source.new) found) }
        ensures source { NamesFault ReadEnd.ReadFault (S.faults source.old) (S.faults source.new) result }
    {
        for _ in 0..u64::MAX {
            let Some(event) = self.events.next(alloc, source)? else {
                return Ok(None);
            };
            match self.counter.event(alloc, event) {
                Ok(Some(exchange)) => return Ok(Some(exchange)),
                Ok(None) => {}
                Err(OutOfMemory) => return Err(ReadEnd::OutOfMemory),
            }
        }
        Err(ReadEnd::OutOfMemory)
    }

    /// Takes all exchanges that come. The errors are those of `next`.
    #[tactic(auto, using(crate::proofs::ComingLemmas::taken_start, crate::proofs::ComingLemmas::taken_on, crate::proofs::ComingLemmas::taken_end))]
    pub fn take_all<S: Source>(&mut self, alloc: Global, source: &mut S) -> Result<(), ReadEnd>
        ensures taken { OnOk result (TakesAll self.old self.new (S.left source.old)) }
        ensures source { NamesFault ReadEnd.ReadFault (S.faults source.old) (S.faults source.new) result }
    {
        for _ in 0..u64::MAX {
            let found = self.next(alloc, source)?;
            let is_end = found.is_none();
            drop(found);
            if is_end {
                return Ok(());
            }
        }
        Err(ReadEnd::OutOfMemory)
    }
}
