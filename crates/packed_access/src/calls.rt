//! The calls of the access.
ghost use Rattle.std.specs.Prelude.{◌&&◌, ◌<◌, ◌≡◌, List, None, IfOk};
ghost use Rattle.target_machine.specs.Plain.{may_forgive};
ghost use Rattle.target_machine.specs.Sound.{IsSound};
ghost use Rattle.target_machine.specs.declared.unit.Call.TheVariants.{Access};
ghost use Rattle.probe_core.specs.Bench.{BenchState};
ghost use Rattle.access_calls.specs.Answers.{HasSlot, IsSmallWhere};
ghost use Rattle.bench_flights.specs.Flown.{IsSetTo};
ghost use Rattle.packed_access.specs.Logs.{most_entries};
ghost use Rattle.target_calls.specs.World.{small_now, start_world};
ghost use Rattle.target_calls.specs.declared.calls.Ask.{Ask};
ghost use Rattle.target_machine.specs.InRange.{IsProbeInRange};
ghost use Rattle.target_calls.specs.Asks.{IsUnitInRange, is_wide, unit_ask};
ghost use Rattle.probe_core.specs.Probe.{target_of};
ghost use Rattle.access_regs.specs.Costs.{command_cost};
ghost use Rattle.access_regs.specs.Journal.{is_alone};
ghost use Rattle.packed_access.specs.Gives.{AsksFor};
ghost use Rattle.packed_access.specs.Frame.{AsksWhole, CanIssue, SenderSteps};
ghost use Rattle.packed_access.specs.Views.{SenderHasAsked, SenderHasBegun};

use crate::access::PackedAccess;
use crate::seen::Viewed;
use crate::sender::{Sender, count_points};
use access_calls::{Access, Stop};
use bench_flights::Flights;
use probe_core::Config;
use target_calls::{Ask, Asked, Slot};
use target_machine::{Call, ProbeCall, Unit};

// Whether a fault of the unit is forgiven: error control counts for memory and AP units alone.
fn may_forgive(unit: &Unit) -> bool
    ensures { result ≡ may_forgive (Access unit.now) }
{
    matches!(unit, Unit::Memory { .. } | Unit::Ap { .. })
}

// Whether the unit is a memory access of an address of more than 32 bits.
fn is_wide(unit: &Unit) -> bool
    ensures { result ≡ is_wide unit.now }
{
    match *unit {
        Unit::Memory { address, .. } => address > 0xFFFF_FFFF,
        _ => false,
    }
}

// The call that asks a unit. The unit's numbers are in the ranges of their types.
fn ask_of(unit: Unit, forgive: bool) -> Ask
    ensures answer { result ≡ unit_ask unit forgive }
    ensures range { IsUnitInRange unit }
{
    Ask {
        call: Call::Access(unit),
        forgive,
        settled: false,
    }
}

// What is answered for the call of this number.
fn answer(small: bool, index: u32) -> Asked
    ensures slot { HasSlot index result }
    ensures small { IsSmallWhere small result }
{
    if small {
        Asked::Small
    } else {
        Asked::Slot(Slot { index })
    }
}

// How many need points a command makes: one for the send before it, and one for each of its packets. The command's
// numbers are in the ranges of their types.
fn points_of(call: ProbeCall) -> u64
    ensures answer { result ≡ command_cost call }
    ensures range { IsProbeInRange call }
{
    match call {
        ProbeCall::Delay(micros) => 2 + u64::from(micros / 0xFFFF),
        _ => 2,
    }
}

// Whether the unit is made alone.
fn makes_alone<F: Flights>(unit: &Unit, forgive: bool) -> bool
    ensures { result ≡ (is_alone F.planner forgive && may_forgive (Access unit.now)) }
{
    (forgive || F::plans_alone()) && may_forgive(unit)
}

impl<F: Flights> Sender<F> {
    // Issues the unit of the last call. Answers whether its access port has no large addresses.
    pub(crate) fn issue_asked(
        &mut self,
        config: Config,
        unit: &Unit,
        forgive: bool,
    ) -> Result<bool, Stop>
        requires ready { CanIssue most_entries (⟦<Self as Viewed>⟧.view self.old) }
        requires sound { IsSound unit.now }
        ensures gives { AsksFor result (⟦<Self as Viewed>⟧.view self.old) (⟦<Self as Viewed>⟧.view self.new)
            (λ m0 ask. (IsSetTo config.idle config.retry m0) × (ask ≡ unit_ask unit.now forgive)) SenderHasBegun }
        ensures small { (m0 : BenchState) (calls : List Ask) (ask : Ask) → IsSetTo config.idle config.retry m0 → ask ≡ unit_ask unit.now forgive
            → SenderHasAsked (⟦<Self as Viewed>⟧.view self.old) calls ask m0
            → IfOk result (λ small. small ≡ small_now (start_world (target_of m0.probe) None) calls ask) }
        ensures step { SenderSteps result (⟦<Self as Viewed>⟧.view self.old) (⟦<Self as Viewed>⟧.view self.new) }
        ensures asks { AsksWhole result (⟦<Self as Viewed>⟧.view self.old) (⟦<Self as Viewed>⟧.view self.new) }
    {
        match *unit {
            Unit::Poll { mask, value, turns } => {
                self.ask_poll(config, mask, value, turns)?;
                Ok(false)
            }
            _ => {
                if makes_alone::<F>(unit, forgive) {
                    self.ask_alone(unit, forgive)
                } else {
                    self.ask_planned(unit)
                }
            }
        }
    }
}

impl<F: Flights> Access for PackedAccess<F> {
    ghost use Rattle.access_regs.specs.Journal.{issued_entries};
    ghost use Rattle.packed_access.specs.Sparing.{HasBegunSet, keeps_bounds};
    ghost use Rattle.access_regs.specs.Costs.{cost_by};
    ghost use Rattle.packed_access.specs.Logs.{keeps_by, reported_by};
    ghost use Rattle.packed_access.specs.Grows.{grows_packed, settles_packed};
    ghost use Rattle.packed_access.specs.Spares.{spares_by};
    ghost use Rattle.packed_access.specs.Stands.{stands_packed};

    ghost reported = { λ s. reported_by (F.reported s.sender.flights) (F.state s.sender.flights) s.sender.log (F.packet s.sender.flights) (F.reply s.sender.flights) };

    ghost identity = { λ s. F.identity s.sender.flights };

    ghost begun = { λ s m. HasBegunSet s.config.idle s.config.retry F.planner
        (F.limits s.sender.flights) (F.reported s.sender.flights) (F.state s.sender.flights) s.sender.log
        (F.packet s.sender.flights) (F.reply s.sender.flights) s.sender.managed (F.accesses s.sender.flights) m };

    ghost journal = { issued_entries F.planner };

    ghost cost = { cost_by F.planner };

    ghost is_sparing = { keeps_bounds F.planner };

    ghost grows = { grows_packed F.planner };

    ghost settles = { settles_packed F.planner };

    ghost keeps = { λ s. keeps_by (F.reported s.sender.flights) (F.state s.sender.flights) s.sender.log (F.packet s.sender.flights) (F.reply s.sender.flights) };

    ghost stands = { λ s m answered is left. stands_packed F.planner _ _ _ _ _ _ _ m answered is.sparing.begun left };

    ghost spares = { λ s m answered is left. spares_by F.planner _ _ _ _ _ _ _ _ m answered is.sparing };

    fn ask(&mut self, unit: Unit, forgive: bool) -> Result<Asked, Stop> {
        if let Some(stop) = self.sender.log.end() {
            return Err(stop);
        }
        let index = self.sender.log.count();
        let ask = ask_of(unit, forgive);
        if self.sender.log.ask(ask).is_err() {
            return Err(Stop::OutOfMemory);
        }
        match self.sender.issue_asked(self.config, &unit, forgive) {
            Ok(small) => Ok(answer(small && is_wide(&unit), index)),
            Err(stop) => Err(stop),
        }
    }

    fn command(&mut self, call: ProbeCall) -> Result<u64, Stop> {
        if let Some(stop) = self.sender.log.end() {
            return Err(stop);
        }
        let points = points_of(call);
        let ask = Ask {
            call: Call::Probe(call),
            forgive: false,
            settled: false,
        };
        if self.sender.log.ask(ask).is_err() {
            return Err(Stop::OutOfMemory);
        }
        match self.sender.send() {
            Ok(()) => {}
            Err(stop) => return Err(stop),
        }
        match self.sender.make_last(call) {
            Err(stop) => Err(stop),
            Ok(word) => {
                let count = self.sender.log.count();
                self.sender.log.need(count_points::<F>(points), count);
                Ok(u64::from(word))
            }
        }
    }

    fn value(&mut self, slot: Slot) -> Result<u64, Stop> {
        if self.sender.log.is_known(slot.index) {
            return Ok(self.sender.log.use_slot(slot));
        }
        if let Some(stop) = self.sender.log.end() {
            return Err(stop);
        }
        self.sender.send()?;
        Ok(self.sender.log.use_slot(slot))
    }

    fn flush(&mut self) -> Result<(), Stop> {
        if let Some(stop) = self.sender.log.end() {
            return Err(stop);
        }
        self.sender.send()?;
        let count = self.sender.log.count();
        self.sender.log.need(1, count);
        Ok(())
    }

    fn finish(&mut self) -> Result<(), Stop> {
        if let Some(stop) = self.sender.log.end() {
            return Err(stop);
        }
        self.sender.log.mark();
        let count = self.sender.log.count();
        match self.sender.settle(count) {
            Ok(()) => {}
            Err(stop) => return Err(stop),
        }
        match self.sender.send() {
            Ok(()) => {
                self.sender.log.need(1, count);
                Ok(())
            }
            Err(stop) => Err(stop),
        }
    }

    fn sent(&self) -> &[u8] {
        match self.sender.log.end() {
            Some(Stop::Cut(_) | Stop::ReplyBad) => self.sender.flights.sent(),
            None | Some(Stop::BenchFault { .. } | Stop::OutOfMemory) => &[],
        }
    }

    fn got(&self) -> &[u8] {
        match self.sender.log.end() {
            Some(Stop::Cut(_) | Stop::ReplyBad) => self.sender.flights.got(),
            None | Some(Stop::BenchFault { .. } | Stop::OutOfMemory) => &[],
        }
    }

    fn skipped(&self) -> u32 {
        self.sender.log.count_skipped()
    }
}
