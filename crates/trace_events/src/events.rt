//! The events of a trace, from a source.
ghost use Rattle.std.specs.Prelude.{◌≡◌, IfErr, IfOk};
ghost use Rattle.text_lines.specs.Causes.{NamesFault};
ghost use Rattle.trace_events.specs.Events.{first_place, GivesEvent};
ghost use Rattle.trace_events.specs.Inputs.{GivesFirstItem};
ghost use Rattle.trace_events.specs.Readings.{end_events};

use crate::event::Event;
use crate::input::Input;
use crate::reading::Reading;
use dap_base::Source;
use std::alloc::Global;
use std::marker::Model;

/// Why the next event of a trace is not given.
#[derive(Clone, Copy, Debug, PartialEq, Eq)]
pub enum ReadEnd {
    /// The source failed.
    ReadFault,
    /// Memory was refused.
    OutOfMemory,
}

/// The events of a trace, as they come from a source. Contracts see what is kept from one event to the next.
#[derive(Drop)]
pub struct Events {
    input: Input,
    reading: Reading,
}

impl Model for Events {
    ghost use Rattle.trace_events.specs.Events.{Place};

    ghost Value = { Place };

    ghost view = { λ e. record { input = e.input; reading = e.reading } };
}

impl Events {
    /// Before the first event.
    pub fn new(alloc: Global) -> Events
        ensures { result ≡ first_place }
    {
        Events {
            input: Input::new(),
            reading: Reading::new(alloc),
        }
    }

    // The next event at the end of the trace.
    fn end(&mut self, alloc: Global) -> Result<Option<Event>, ReadEnd>
        ensures event { IfOk result (λ event. GivesFirstItem (end_events self.old.reading) event (end_events self.new.reading)) }
        ensures input { self.new.input ≡ self.old.input }
        ensures memory { IfErr result (λ e. e ≡ ReadEnd.OutOfMemory) }
    {
        match self.reading.end(alloc) {
            Ok(event) => Ok(event),
            Err(_) => Err(ReadEnd::OutOfMemory),
        }
    }

    /// The next event, which this source gives: always the same one. `None` at the end of the trace.
    ///
    /// `ReadFault` where the source failed, and `OutOfMemory` where memory is refused. No event comes after that.
    #[tactic(auto, using(crate::proofs::EventLemmas::ahead_start, crate::proofs::EventLemmas::ahead_on, crate::proofs::EventLemmas::ahead_event, crate::proofs::EventLemmas::ahead_end))]
    pub fn next<S: Source>(
        &mut self,
        alloc: Global,
        source: &mut S,
    ) -> Result<Option<Event>, ReadEnd>
        ensures next { IfOk result (λ event. GivesEvent self.old self.new (S.left source.old) (S.left source.new) event) }
        ensures source { NamesFault ReadEnd.ReadFault (S.faults source.old) (S.faults source.new) result }
    {
        for _ in 0..u64::MAX {
            let Ok(byte) = self.input.next(source) else {
                return Err(ReadEnd::ReadFault);
            };
            let Some(byte) = byte else {
                return self.end(alloc);
            };
            let Ok(event) = self.reading.byte(alloc, byte) else {
                return Err(ReadEnd::OutOfMemory);
            };
            if let Some(event) = event {
                return Ok(Some(event));
            }
        }
        Err(ReadEnd::OutOfMemory)
    }
}
