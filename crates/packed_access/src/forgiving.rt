//! Units that are made alone: each access made as by the unit alone, in flights of which only the last access may fault.
ghost use Rattle.std.specs.Prelude.{◌≡◌, ◌<◌, ◌≤◌, ◌+◌, [], List, None, false, true, length, IfErr, IfOk, OnOk};
ghost use Rattle.std.specs.List.{list_any};
ghost use Rattle.target_machine.specs.Lists.{after};
ghost use Rattle.target_machine.specs.Plain.{Action, may_forgive, memory_actions};
ghost use Rattle.target_machine.specs.Sound.{IsSoundMemory};
ghost use Rattle.target_machine.specs.State.{TargetState};
ghost use Rattle.target_machine.specs.declared.access.RegAccess.{RegAccess};
ghost use Rattle.target_machine.specs.declared.unit.Unit.TheVariants as unit;
ghost use Rattle.probe_core.specs.Bench.{BenchState, StepsTo};
ghost use Rattle.packed_access.specs.Forgiving.{CameTo, IsDoneBy, log_after_answer};
ghost use Rattle.bench_flights.specs.Flown.{SendsFew};
ghost use Rattle.batch_packer.specs.Flying.{CanFly};
ghost use Rattle.packed_access.specs.Logs.{IsSoundState, most_entries};
ghost use Rattle.target_calls.specs.World.{small_now, start_world};
ghost use Rattle.target_calls.specs.declared.calls.Ask.{Ask};
ghost use Rattle.target_calls.specs.Asks.{unit_ask};
ghost use Rattle.probe_core.specs.Probe.{target_of};
ghost use Rattle.target_machine.specs.declared.unit.Call.TheVariants.{Access};
ghost use Rattle.access_regs.specs.Journal.{is_end, making};
ghost use Rattle.access_regs.specs.Kept.{Kept, known_at, kept_with_select};
ghost use Rattle.access_regs.specs.Plan.{needs_cfg, select_value};
ghost use Rattle.access_regs.specs.declared.planner.Planner.TheVariants.{Managed};
ghost use Rattle.packed_access.specs.Gives.{AsksFor};
ghost use Rattle.packed_access.specs.Frame.{AsksWhole, CanIssue, CanTry, CanTryUnit, IsMadeAlone, SenderSteps, Tries};
ghost use Rattle.packed_access.specs.Views.{IsTried, SenderHasAsked, SenderHasBegun, SenderIsBroken};

use crate::log::CallLog;
use crate::planned::port_of;
use crate::seen::Viewed;
use crate::sender::{Sender, count_points};
use access_calls::Stop;
use bench_flights::Flights;
use target_calls::accesses::{access_ap, access_drw, high_of, low_of};
use target_machine::registers::{CFG, CSW, TAR, TAR_HIGH};
use target_machine::{RegAccess, Unit, plain_csw};

// How a unit went.
#[derive(Drop)]
struct Attempt {
    // its access port has no large addresses
    small: bool,
    // what its last access gave; none where it was skipped
    word: Option<u32>,
    // how many reads of CFG and CSW led to it
    reads: u64,
}

// The unit was made, or skipped, after so many reads.
fn attempt_of(word: Option<u32>, reads: u64) -> Attempt
    ensures small { result.small ≡ false }
    ensures word { result.word ≡ word }
    ensures reads { result.reads ≡ reads }
{
    Attempt {
        small: false,
        word,
        reads,
    }
}

// All that the last call issues was made: it came, and its last access gave this word, or it was skipped.
fn close_call(log: &mut CallLog, word: Option<u32>)
    requires open { log.old.end ≡ None }
    requires some { 0 < length log.old.calls }
    ensures answer { log.new ≡ log_after_answer word log.old }
    ensures sound { IsSoundState log.new }
{
    let last = log.count() - 1;
    log.note_all_issued();
    match word {
        Some(word) => {
            log.take(last, word);
            log.confirm();
        }
        None => {
            log.take(last, 0);
            log.confirm();
            log.skip();
        }
    }
}

impl<F: Flights> Sender<F> {
    // Makes a memory access by the access port.
    fn try_memory(
        &mut self,
        large: bool,
        size: u8,
        read: bool,
        ap: u8,
        address: u64,
        value: u32,
        forgive: bool,
    ) -> Result<Option<u32>, Stop>
        requires ready { CanTry 8 (⟦<Self as Viewed>⟧.view self.old) }
        requires calm { self.old.managed.unsettled ≡ None }
        requires sound { IsSoundMemory size read address value }
        ensures on { (m0 : BenchState) (k : Kept) (t : TargetState) (made : List RegAccess) (rest : List Action)
            → IsTried (⟦<Self as Viewed>⟧.view self.old) forgive (unit.Memory size read ap address value) k t made rest m0
            → list_any (is_end (unit.Memory size read ap address value)) (making made) ≡ false
            → rest ≡ memory_actions (after t (making made)) large size read ap address value
            → IfOk result (λ w. CameTo F.planner forgive w (F.state self.new.flights) self.new.log (unit.Memory size read ap address value) k t m0) }
        ensures broke { (m0 : BenchState) (k : Kept) (t : TargetState) (made : List RegAccess) (rest : List Action)
            → IsTried (⟦<Self as Viewed>⟧.view self.old) forgive (unit.Memory size read ap address value) k t made rest m0
            → list_any (is_end (unit.Memory size read ap address value)) (making made) ≡ false
            → rest ≡ memory_actions (after t (making made)) large size read ap address value
            → IfErr result (SenderIsBroken (⟦<Self as Viewed>⟧.view self.new) self.old.log.calls m0) }
        ensures packets { F.planner ≡ Managed → OnOk result (StepsTo (λ m o. CanFly m → SendsFew 3 m o) (F.state self.old.flights) (F.state self.new.flights)) }
        ensures tries { Tries result 8 (⟦<Self as Viewed>⟧.view self.old) (⟦<Self as Viewed>⟧.view self.new) }
        ensures managed { self.new.managed ≡ kept_with_select self.old.managed (select_value ap 0) }
    {
        let csw = match self.try_port(ap, 0, access_ap(true, CSW, 0), false, forgive) {
            Ok(Some(csw)) => csw,
            Ok(None) => return Ok(None),
            Err(stop) => return Err(stop),
        };
        let csw = access_ap(false, CSW, plain_csw(csw, size));
        let high = access_ap(false, TAR_HIGH, high_of(address));
        let low = access_ap(false, TAR, low_of(address));
        let last = access_drw(read, address, value);
        if large {
            self.try_flight(&[csw, high, low], last, true, forgive)
        } else {
            self.try_flight(&[csw, low], last, true, forgive)
        }
    }

    // Whether the access port is known to have large addresses.
    pub(crate) fn is_large(&self, ap: u8) -> bool
        ensures { result ≡ (known_at self.now.managed ap).large }
    {
        !self.managed.needs_cfg(&Unit::Memory {
            size: 4,
            read: true,
            ap,
            address: 0x1_0000_0000,
            value: 0,
        })
    }

    // Makes a memory access that needs CFG.
    fn try_wide(
        &mut self,
        size: u8,
        read: bool,
        ap: u8,
        address: u64,
        value: u32,
        forgive: bool,
    ) -> Result<Attempt, Stop>
        requires ready { CanTry 11 (⟦<Self as Viewed>⟧.view self.old) }
        requires calm { self.old.managed.unsettled ≡ None }
        requires sound { IsSoundMemory size read address value }
        requires wide { needs_cfg self.old.managed (unit.Memory size read ap address value) ≡ true }
        ensures on { (m0 : BenchState) (t : TargetState) (rest : List Action) → length self.old.managed.ports ≡ 256
            → IsTried (⟦<Self as Viewed>⟧.view self.old) forgive (unit.Memory size read ap address value) self.old.managed t [] rest m0
            → IfOk result (λ r. IsDoneBy F.planner forgive r.small r.word r.reads self.new.managed (F.state self.new.flights) self.new.log
            (unit.Memory size read ap address value) self.old.managed t m0) }
        ensures broke { (m0 : BenchState) (t : TargetState) (rest : List Action) → length self.old.managed.ports ≡ 256
            → IsTried (⟦<Self as Viewed>⟧.view self.old) forgive (unit.Memory size read ap address value) self.old.managed t [] rest m0
            → IfErr result (SenderIsBroken (⟦<Self as Viewed>⟧.view self.new) self.old.log.calls m0) }
        ensures reads { IfOk result (λ r. r.reads ≤ 2) }
        ensures packets { F.planner ≡ Managed → OnOk result (StepsTo (λ m o. CanFly m → SendsFew 4 m o) (F.state self.old.flights) (F.state self.new.flights)) }
        ensures tries { Tries result 11 (⟦<Self as Viewed>⟧.view self.old) (⟦<Self as Viewed>⟧.view self.new) }
        ensures calm { self.new.managed.unsettled ≡ None }
    {
        let cfg = match self.try_port(ap, CFG / 16, access_ap(true, CFG % 16, 0), false, forgive) {
            Ok(Some(cfg)) => cfg,
            Ok(None) => return Ok(attempt_of(None, 1)),
            Err(stop) => return Err(stop),
        };
        if !self.managed.learn_cfg(ap, cfg) {
            return Ok(Attempt {
                small: true,
                word: Some(0),
                reads: 1,
            });
        }
        match self.try_memory(true, size, read, ap, address, value, forgive) {
            Ok(word) => Ok(attempt_of(word, 2)),
            Err(stop) => Err(stop),
        }
    }

    // Makes the accesses of a unit.
    fn try_unit(&mut self, unit: &Unit, forgive: bool) -> Result<Attempt, Stop>
        requires ready { CanTry 11 (⟦<Self as Viewed>⟧.view self.old) }
        requires unit { CanTryUnit self.old.managed unit.now }
        ensures on { (m0 : BenchState) (t : TargetState) (rest : List Action) → may_forgive (Access unit.now) ≡ true → length self.old.managed.ports ≡ 256
            → IsTried (⟦<Self as Viewed>⟧.view self.old) forgive unit.now self.old.managed t [] rest m0
            → IfOk result (λ r. IsDoneBy F.planner forgive r.small r.word r.reads self.new.managed (F.state self.new.flights) self.new.log
            unit.now self.old.managed t m0) }
        ensures broke { (m0 : BenchState) (t : TargetState) (rest : List Action) → length self.old.managed.ports ≡ 256
            → IsTried (⟦<Self as Viewed>⟧.view self.old) forgive unit.now self.old.managed t [] rest m0
            → IfErr result (SenderIsBroken (⟦<Self as Viewed>⟧.view self.new) self.old.log.calls m0) }
        ensures reads { IfOk result (λ r. r.reads ≤ 2) }
        ensures packets { F.planner ≡ Managed → OnOk result (StepsTo (λ m o. CanFly m → SendsFew 4 m o) (F.state self.old.flights) (F.state self.new.flights)) }
        ensures tries { Tries result 11 (⟦<Self as Viewed>⟧.view self.old) (⟦<Self as Viewed>⟧.view self.new) }
        ensures calm { self.new.managed.unsettled ≡ None }
    {
        match *unit {
            Unit::Memory {
                size,
                read,
                ap,
                address,
                value,
            } => {
                if self.managed.needs_cfg(unit) {
                    return self.try_wide(size, read, ap, address, value, forgive);
                }
                let large = self.is_large(ap);
                match self.try_memory(large, size, read, ap, address, value, forgive) {
                    Ok(word) => Ok(attempt_of(word, 1)),
                    Err(stop) => Err(stop),
                }
            }
            Unit::Ap {
                read,
                ap,
                addr,
                value,
            } => {
                let access = access_ap(read, addr % 16, value);
                match self.try_port(ap, addr / 16, access, true, forgive) {
                    Ok(word) => Ok(attempt_of(word, 0)),
                    Err(stop) => Err(stop),
                }
            }
            Unit::Dp { .. } | Unit::Poll { .. } => Ok(attempt_of(Some(0), 0)),
        }
    }

    // Asks a unit that is made alone, and forgives a fault or not. Answers whether its access port has no large addresses.
    pub(crate) fn ask_alone(&mut self, unit: &Unit, forgive: bool) -> Result<bool, Stop>
        requires ready { CanIssue most_entries (⟦<Self as Viewed>⟧.view self.old) }
        requires alone { IsMadeAlone F.planner forgive unit.now }
        ensures gives { AsksFor result (⟦<Self as Viewed>⟧.view self.old) (⟦<Self as Viewed>⟧.view self.new) (λ m0 ask. ask ≡ unit_ask unit.now forgive) SenderHasBegun }
        ensures small { (m0 : BenchState) (calls : List Ask) (ask : Ask) → ask ≡ unit_ask unit.now forgive
            → SenderHasAsked (⟦<Self as Viewed>⟧.view self.old) calls ask m0
            → IfOk result (λ small. small ≡ small_now (start_world (target_of m0.probe) None) calls ask) }
        ensures step { SenderSteps result (⟦<Self as Viewed>⟧.view self.old) (⟦<Self as Viewed>⟧.view self.new) }
        ensures asks { AsksWhole result (⟦<Self as Viewed>⟧.view self.old) (⟦<Self as Viewed>⟧.view self.new) }
    {
        let count = self.log.count();
        // there is something to settle only after an earlier call
        match self.settle((count - 1).max(1)) {
            Ok(()) => {}
            Err(stop) => return Err(stop),
        }
        match self.send() {
            Ok(()) => {}
            Err(stop) => return Err(stop),
        }
        match self.try_unit(unit, forgive) {
            Err(stop) => Err(stop),
            Ok(tried) => {
                self.managed.forget(port_of(unit));
                close_call(&mut self.log, tried.word);
                self.log.need(count_points::<F>(5 + tried.reads), count);
                Ok(tried.small)
            }
        }
    }
}
