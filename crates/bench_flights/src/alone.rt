//! Flights of one access each over a bench.

use crate::flights::{Flights, Polled};
use crate::opening::FlightsOver;
use crate::wire::Wire;
use access_calls::NotBegun;
use batch_packer::FlightEnd;
use probe_core::{Bench, Config, Limits};
use std::alloc::Global;
use target_machine::{ProbeCall, RegAccess};

/// Flights of one access each over a bench: where an access waits there is no room for another.
#[derive(Drop)]
pub struct Alone<B: Bench> {
    pub(crate) wire: Wire<B>,
}

impl<B: Bench> Flights for Alone<B> {
    ghost use Rattle.std.specs.Prelude.{◌==◌, length};
    ghost use Rattle.batch_packer.specs.FlightStates.{item_at};
    ghost use Rattle.access_regs.specs.declared.planner.Planner.TheVariants.{Plain};

    ghost reported = { λ w. B.reported w.wire.bench };

    ghost state = { λ w. B.state w.wire.bench };

    ghost identity = { λ w. B.identity w.wire.bench };

    ghost accesses = { λ w. w.wire.flight.accesses };

    ghost values = { λ w. w.wire.slots.values };

    ghost ended = { λ w. w.wire.flight.end };

    ghost limits = { λ w. w.wire.flight.limits };

    ghost planner = { Plain };

    ghost has_room = { λ w next. length w.wire.flight.accesses == 0 };

    ghost is_resumable = { λ w. w.wire.flight.resumable };

    ghost packet = { λ w. item_at w.wire.flight.packets w.wire.flight.at };

    ghost reply = { λ w. item_at w.wire.flight.replies w.wire.flight.at };

    fn plans_alone() -> bool {
        true
    }

    fn room(&self, _next: RegAccess) -> bool {
        self.wire.flight.count() == 0
    }

    fn push(&mut self, next: RegAccess) {
        self.wire.push(next);
    }

    fn send(&mut self) -> Result<(), FlightEnd> {
        self.wire.send()
    }

    fn value(&self, place: u32) -> u32 {
        self.wire.value(place)
    }

    fn can_resume(&self) -> bool {
        self.wire.can_resume()
    }

    fn resume(&mut self) {
        self.wire.resume();
    }

    fn poll(
        &mut self,
        config: Config,
        mask: u32,
        requested: u32,
        turns: u32,
    ) -> Result<bool, FlightEnd> {
        self.wire.poll(config, mask, requested, turns)
    }

    fn poll_by_reads(
        &mut self,
        mask: u32,
        requested: u32,
        turns: u32,
    ) -> Result<Polled, FlightEnd> {
        self.wire.poll_by_reads(mask, requested, turns)
    }

    fn command(&mut self, call: ProbeCall) -> Result<u32, FlightEnd> {
        self.wire.command(call)
    }

    fn sent(&self) -> &[u8] {
        self.wire.sent()
    }

    fn got(&self) -> &[u8] {
        self.wire.got()
    }
}

impl<B: Bench> FlightsOver<B> for Alone<B> {
    fn begin(
        alloc: Global,
        bench: B,
        config: Config,
        limits: Limits,
    ) -> Result<Alone<B>, NotBegun<B>> {
        let wire = Wire::begin(alloc, bench, config, limits)?;
        Ok(Alone { wire })
    }

    fn into_bench(self) -> B {
        let Alone { wire } = self;
        wire.into_bench()
    }
}
