//! What makes flights, polls and commands of the probe, as an access uses it.
ghost use Rattle.std.specs.Prelude.{◌≡◌, ◌≤◌, ◌+◌, ◌-◌, ◌++◌, ◌∷◌, ◌^◌, ◌<◌, true, false, [], ℕ, Bool, List, Option, None, Some, length, IfOk, IfErr, OnOk};
ghost use Rattle.std.specs.Option.{unwrap_or};
ghost use Rattle.target_machine.specs.Plain.{Commands, Polls, forgives, poll_result};
ghost use Rattle.target_machine.specs.Sound.{IsSoundProbe};
ghost use Rattle.target_machine.specs.declared.access.RegAccess.{RegAccess};
ghost use Rattle.access_regs.specs.Costs.{command_cost, portions};
ghost use Rattle.access_regs.specs.Journal.{is_alone};
ghost use Rattle.access_regs.specs.declared.planner.Planner.{Planner};
ghost use Rattle.access_regs.specs.declared.planner.Planner.TheVariants.{Managed};
ghost use Rattle.flight_forms.specs.Packing.{IsTaken};
ghost use Rattle.probe_core.specs.Bench.{BenchState, Reported};
ghost use Rattle.probe_core.specs.Probe.{target_of, work_of};
ghost use Rattle.probe_core.specs.declared.job.Limits.{Limits};
ghost use Rattle.access_calls.specs.Standing.{flight_accesses};
ghost use Rattle.batch_packer.specs.Exchanges.{StepsWhere};
ghost use Rattle.batch_packer.specs.FlightEnds.{IsShort};
ghost use Rattle.batch_packer.specs.Flying.{CanFly};
ghost use Rattle.batch_packer.specs.SlotList.{slot_at};
ghost use Rattle.batch_packer.specs.declared.ends.FlightEnd.{FlightEnd};
ghost use Rattle.bench_flights.specs.Full.{IsFull};
ghost use Rattle.bench_flights.specs.Clearing.{CanClear, ClearedOff, IsOneTransfer, is_fault_end};
ghost use Rattle.bench_flights.specs.Flown.{BrokeOff, CanCommand, HasCome, HasDoneWhole, IsTargetInRange, KeepsFlights};
ghost use Rattle.bench_flights.specs.Flown.{LeavesBench, LeftActionOff, NamesNoAccess, SendsFew, StepsMatching, matched_word};

use batch_packer::FlightEnd;
use probe_core::Config;
use target_machine::{ProbeCall, RegAccess};

/// What a poll that is made read by read came to.
#[derive(Clone, Copy, Debug, PartialEq, Eq)]
pub struct Polled {
    /// Whether the value under the mask was the requested one.
    pub matched: bool,
    /// How many reads were made.
    pub reads: u32,
}

/// What makes flights of register accesses, polls of CTRL/STAT, and commands of the probe. After an end it is used
/// no more, except that it goes on after a flight that was cut by a fault as one Transfer.
pub trait Flights {
    /// What its bench reports.
    ghost reported: { Self → Reported };

    /// The state of its bench, where that is observable.
    ghost state: { Self → Option BenchState };

    /// Which loan its bench is.
    ghost identity: { Self → ℕ };

    /// The accesses that were pushed and not sent.
    ghost accesses: { Self → List RegAccess };

    /// The values of the last flight.
    ghost values: { Self → List (Option ℕ) };

    /// How it ended.
    ghost ended: { Self → Option FlightEnd };

    /// The limits that its packets are held to.
    ghost limits: { Self → Limits };

    /// In which way an access over it plans the accesses of units.
    ghost planner: { Planner };

    /// Whether there is room for an access more.
    ghost has_room: { Self → RegAccess → Bool };

    /// Whether it can go on after its end.
    ghost is_resumable: { Self → Bool };

    /// The packet that ended it.
    ghost packet: { Self → List ℕ };

    /// The reply that ended it.
    ghost reply: { Self → List ℕ };

    /// Whether an access over it makes each memory and AP unit alone, each access a flight of its own.
    fn plans_alone() -> bool
        ensures { result ≡ is_alone planner false };

    /// Whether there is room for an access more. An access alone always has room. By the managed planner, where there is
    /// none it has the capacity of accesses at least, and a block of them where all are writes of DRW.
    fn room(&self, next: RegAccess) -> bool
        requires { IsTaken next }
        ensures answer { result ≡ has_room self.now next }
        ensures full { planner ≡ Managed → result ≡ false → IsFull (limits self.now) (accesses self.now) next };

    /// Adds an access for which there is room. By the managed planner, where it has fewer than four then, there is room
    /// for one more.
    fn push(&mut self, next: RegAccess)
        requires taken { IsTaken next }
        requires room { has_room self.old next ≡ true }
        ensures accesses { accesses self.new ≡ accesses self.old ++ next ∷ [] }
        ensures few { planner ≡ Managed → (next : RegAccess) → IsTaken next → length (accesses self.new) < 4
            → has_room self.new next ≡ true }
        ensures ended { ended self.new ≡ ended self.old }
        ensures packet { packet self.new ≡ packet self.old }
        ensures reply { reply self.new ≡ reply self.old }
        ensures keeps { LeavesBench reported state identity limits self.old self.new };

    /// Sends the accesses that were pushed, and reads every reply. They are at most as many as a flight holds by the limits
    /// of the bench. At an error it has ended. One access, and up to four of which the first is no write of DRW, are sent as
    /// one Transfer, whose cut by a fault can be gone on after.
    fn send(&mut self) -> Result<(), FlightEnd>
        requires usable { ended self.old ≡ None }
        ensures held { length (accesses self.old) ≤ flight_accesses (reported self.new).limits }
        ensures came { OnOk result (StepsWhere CanFly (HasCome (accesses self.old) (values self.new)) (state self.old) (state self.new)) }
        ensures broke { IfErr result (λ end. StepsWhere CanFly (BrokeOff end (accesses self.old)) (state self.old) (state self.new)) }
        ensures short { IfErr result (λ end. IsShort (length (accesses self.old)) (Some end)) }
        ensures resumable { IfErr result (λ end. IsOneTransfer (accesses self.old) → is_resumable self.new ≡ is_fault_end end) }
        ensures clear { IfErr result (λ end. IsOneTransfer (accesses self.old) → is_fault_end end ≡ true
            → StepsWhere CanFly (λ _ o. CanClear o) (state self.old) (state self.new)) }
        ensures packets { IfErr result (λ end. is_fault_end end ≡ true → StepsWhere CanFly (SendsFew 1) (state self.old) (state self.new)) }
        ensures room { OnOk result ((next : RegAccess) → IsTaken next → has_room self.new next ≡ true) }
        ensures keeps { KeepsFlights reported state identity accesses ended limits packet reply result self.old self.new };

    /// The value of the read at a place of the last flight, and 0 where there is none.
    fn value(&self, place: u32) -> u32
        ensures { result ≡ unwrap_or (slot_at (values self.now) place) 0 };

    /// Whether the last flight was cut by a fault as one Transfer.
    fn can_resume(&self) -> bool
        ensures { result ≡ is_resumable self.now };

    /// Goes on after a flight that was cut so.
    fn resume(&mut self)
        requires { is_resumable self.old ≡ true }
        ensures accesses { accesses self.new ≡ [] }
        ensures ended { ended self.new ≡ None }
        ensures keeps { LeavesBench reported state identity limits self.old self.new };

    /// Reads CTRL/STAT until the value under the mask is the requested one, at most so many times, by value
    /// matches of the probe. Answers whether it was. SELECT has DPBANKSEL 0, and `config` is what the probe is set to: the
    /// packets of a poll set it again.
    fn poll(
        &mut self,
        config: Config,
        mask: u32,
        requested: u32,
        turns: u32,
    ) -> Result<bool, FlightEnd>
        requires usable { ended self.old ≡ None }
        requires empty { accesses self.old ≡ [] }
        requires turns { 1 ≤ turns }
        ensures done { IfOk result (λ matched. StepsMatching config.idle config.retry
            (HasDoneWhole (Polls mask requested turns) (matched_word matched)) (state self.old) (state self.new)) }
        ensures packets { OnOk result (StepsMatching config.idle config.retry (SendsFew (portions turns))
            (state self.old) (state self.new)) }
        ensures left { IfErr result (λ end. StepsMatching config.idle config.retry (LeftActionOff (Polls mask requested turns) end)
            (state self.old) (state self.new)) }
        ensures none { IfErr result NamesNoAccess }
        ensures keeps { KeepsFlights reported state identity accesses ended limits packet reply result self.old self.new };

    /// The same, each read a flight of its own, whatever DPBANKSEL is.
    fn poll_by_reads(&mut self, mask: u32, requested: u32, turns: u32) -> Result<Polled, FlightEnd>
        requires usable { ended self.old ≡ None }
        requires empty { accesses self.old ≡ [] }
        requires turns { 1 ≤ turns }
        ensures done { IfOk result (λ found. StepsWhere CanFly (HasDoneWhole (Polls mask requested turns) (matched_word found.matched))
            (state self.old) (state self.new)) }
        ensures reads { IfOk result (λ found. StepsWhere CanFly
            (λ m _. found.reads ≡ (poll_result turns mask requested (target_of m.probe)).reads) (state self.old) (state self.new)) }
        ensures packets { IfOk result (λ found. StepsWhere CanFly (SendsFew found.reads) (state self.old) (state self.new)) }
        ensures left { IfErr result (λ end. StepsWhere CanFly (LeftActionOff (Polls mask requested turns) end)
            (state self.old) (state self.new)) }
        ensures none { IfErr result NamesNoAccess }
        ensures keeps { KeepsFlights reported state identity accesses ended limits packet reply result self.old self.new };

    /// Makes a command of the probe. Answers the levels of the pins, and 0 for other commands. A write of ABORT that
    /// clears all errors may follow a fault, and nothing but a bench that failed ends it.
    fn command(&mut self, call: ProbeCall) -> Result<u32, FlightEnd>
        requires usable { ended self.old ≡ None }
        requires empty { accesses self.old ≡ [] }
        requires sound { IsSoundProbe call }
        ensures done { IfOk result (λ word. StepsWhere (CanCommand call) (HasDoneWhole (Commands call) word) (state self.old) (state self.new)) }
        ensures packets { OnOk result (StepsWhere IsTargetInRange (SendsFew (command_cost call - 1)) (state self.old) (state self.new)) }
        ensures left { IfErr result (λ end. StepsWhere (CanCommand call) (LeftActionOff (Commands call) end) (state self.old) (state self.new)) }
        ensures cleared { call ≡ forgives → IfOk result (λ word. StepsWhere CanClear (λ m o. work_of m.probe + 1 < 2 ^ 64
            → HasDoneWhole (Commands call) word m o) (state self.old) (state self.new)) }
        ensures uncleared { call ≡ forgives → IfErr result (λ end. StepsWhere CanClear (λ m o. work_of m.probe + 1 < 2 ^ 64
            → ClearedOff end m o) (state self.old) (state self.new)) }
        ensures none { IfErr result NamesNoAccess }
        ensures keeps { KeepsFlights reported state identity accesses ended limits packet reply result self.old self.new };

    /// The packet of the exchange that ended it by a cut or a bad reply.
    fn sent(&self) -> &[u8]
        ensures sent { result.now ≡ packet self.now }
        ensures bound { length result.now ≤ 1024 };

    /// The reply of that exchange.
    fn got(&self) -> &[u8]
        ensures got { result.now ≡ reply self.now }
        ensures bound { length result.now ≤ 1024 };
}
