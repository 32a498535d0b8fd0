//! Polls of CTRL/STAT.
ghost use Rattle.std.specs.Prelude.{◌≡◌, ◌<◌, ◌≤◌, ◌+◌, ◌-◌, [], ℕ, List, Option, None, true, length, if◌then◌else◌, IfErr, IfOk, OnOk};
ghost use Rattle.target_machine.specs.Plain.{Polls, poll_result};
ghost use Rattle.target_machine.specs.Sound.{IsSound};
ghost use Rattle.target_machine.specs.declared.unit.Unit.TheVariants as unit;
ghost use Rattle.probe_core.specs.Bench.{BenchState, StepsTo};
ghost use Rattle.probe_core.specs.Probe.{target_of};
ghost use Rattle.target_calls.specs.declared.calls.Ask.{Ask};
ghost use Rattle.access_regs.specs.Costs.{poll_cost, portions};
ghost use Rattle.access_regs.specs.Entries.{target_by};
ghost use Rattle.access_regs.specs.Plan.{bank_zero};
ghost use Rattle.access_regs.specs.declared.planner.Planner.TheVariants.{Managed};
ghost use Rattle.access_calls.specs.Left.{IsLeft};
ghost use Rattle.batch_packer.specs.Flying.{CanFly};
ghost use Rattle.packed_access.specs.Begun.{StopsAfterLines};
ghost use Rattle.bench_flights.specs.Flown.{CanMatch, HasDoneWhole, KeepsFlights, LeftActionOff, NamesNoAccess, SendsFew, matched_word};
ghost use Rattle.packed_access.specs.Polls.{HasPoll};
ghost use Rattle.packed_access.specs.Frame.{CanAdd, Exchanges};
ghost use Rattle.packed_access.specs.Views.{IsAtEnd, IsToIssueNext, SenderIsSparing, access_view};

use crate::seen::Viewed;
use crate::sender::Sender;
use access_calls::Stop;
use batch_packer::FlightEnd;
use bench_flights::Flights;
use probe_core::Config;
use target_calls::Part;

// What a poll came to: whether the value matched, and how many need points it makes.
#[derive(Clone, Copy)]
struct MadePoll {
    matched: bool,
    points: u64,
}

// Makes a poll. Where DPBANKSEL is known to be 0 it is made by value matches of the probe, with a need point for each of their portions.
// Else it is made read by read, with a need point for each read. One more comes for the send before it.
fn make_poll<F: Flights>(
    flights: &mut F,
    config: Config,
    zero: bool,
    mask: u32,
    requested: u32,
    turns: u32,
) -> Result<MadePoll, FlightEnd>
    requires usable { F.ended flights.old ≡ None }
    requires empty { F.accesses flights.old ≡ [] }
    requires turns { 1 ≤ turns }
    ensures done { IfOk result (λ found. StepsTo (λ m o. CanFly m → (zero ≡ true → CanMatch config.idle config.retry m)
        → HasDoneWhole (Polls mask requested turns) (matched_word found.matched) m o) (F.state flights.old) (F.state flights.new)) }
    ensures packets { IfOk result (λ found. StepsTo (λ m o. CanFly m → (zero ≡ true → CanMatch config.idle config.retry m)
        → SendsFew (found.points - 1) m o) (F.state flights.old) (F.state flights.new)) }
    ensures some { IfOk result (λ found. 1 ≤ found.points) }
    ensures points { IfOk result (λ found. StepsTo (λ m o. CanFly m
        → found.points ≡ 1 + (if zero then portions turns else (poll_result turns mask requested (target_of m.probe)).reads)) (F.state flights.old) (F.state flights.new)) }
    ensures left { IfErr result (λ end. StepsTo (λ m o. CanFly m → (zero ≡ true → CanMatch config.idle config.retry m)
        → LeftActionOff (Polls mask requested turns) end m o) (F.state flights.old) (F.state flights.new)) }
    ensures none { IfErr result NamesNoAccess }
    ensures keeps { KeepsFlights F.reported F.state F.identity F.accesses F.ended F.limits F.packet F.reply result flights.old flights.new }
{
    if zero {
        let matched = flights.poll(config, mask, requested, turns)?;
        Ok(MadePoll {
            matched,
            points: 1 + (turns as u64 + 0xFFFF) / 0x1_0000,
        })
    } else {
        let polled = flights.poll_by_reads(mask, requested, turns)?;
        Ok(MadePoll {
            matched: polled.matched,
            points: 1 + polled.reads as u64,
        })
    }
}

impl<F: Flights> Sender<F> {
    // Whether polls are made by value matches: where DPBANKSEL is known to be 0, unless each unit is made alone.
    fn polls_by_matches(&self) -> bool
        ensures zero { result ≡ true → bank_zero self.now.managed ≡ true }
        ensures managed { F.planner ≡ Managed → result ≡ bank_zero self.now.managed }
    {
        !F::plans_alone() && self.managed.bank_zero()
    }

    // Makes the last call, which is a poll, where all calls before it came. Answers how many need points it makes.
    #[tactic(auto, using(crate::proofs::FrameLemmas::keeps_on, crate::proofs::FrameLemmas::keeps_still))]
    pub(crate) fn poll_last(
        &mut self,
        config: Config,
        mask: u32,
        requested: u32,
        turns: u32,
    ) -> Result<u64, Stop>
        requires ready { CanAdd 1 (⟦<Self as Viewed>⟧.view self.old) }
        requires sound { IsSound (unit.Poll mask requested turns) }
        requires rest { F.accesses self.old.flights ≡ [] }
        requires last { self.old.log.came + 1 ≡ length self.old.log.calls }
        ensures on { (m0 : BenchState) (calls : List Ask) (ask : Ask)
            → HasPoll F.planner (F.state self.old.flights) self.old.log self.old.managed calls ask mask requested turns config.idle config.retry m0
            → OnOk result (IsToIssueNext (⟦<Self as Viewed>⟧.view self.new) [] m0) }
        ensures spare { (m0 : BenchState) (calls : List Ask) (ask : Ask) (paid : ℕ)
            → HasPoll F.planner (F.state self.old.flights) self.old.log self.old.managed calls ask mask requested turns config.idle config.retry m0
            → SenderIsSparing (⟦<Self as Viewed>⟧.view self.old) (paid + 1) m0
            → IfOk result (λ points. SenderIsSparing (⟦<Self as Viewed>⟧.view self.new) (paid + points) m0) }
        ensures points { F.planner ≡ Managed → (m0 : BenchState) (calls : List Ask) (ask : Ask)
            → HasPoll F.planner (F.state self.old.flights) self.old.log self.old.managed calls ask mask requested turns config.idle config.retry m0
            → IfOk result (λ points. points ≡ poll_cost self.old.managed (target_by F.planner (target_of m0.probe) calls) mask requested turns) }
        ensures broke { (m0 : BenchState) (calls : List Ask) (ask : Ask)
            → HasPoll F.planner (F.state self.old.flights) self.old.log self.old.managed calls ask mask requested turns config.idle config.retry m0
            → IfErr result (IsAtEnd (⟦<Self as Viewed>⟧.view self.new) m0) }
        ensures stops { (m0 : BenchState) (calls : List Ask) (ask : Ask) (answered : Option ℕ)
            → HasPoll F.planner (F.state self.old.flights) self.old.log self.old.managed calls ask mask requested turns config.idle config.retry m0
            → IsLeft (access_view (⟦<Self as Viewed>⟧.view self.new)) answered → IfErr result (StopsAfterLines m0 answered self.old.log.calls self.new.log.lines) }
        ensures exchanges { Exchanges result (⟦<Self as Viewed>⟧.view self.old) (⟦<Self as Viewed>⟧.view self.new) }
        ensures known { OnOk result (self.new.log.known ≡ length self.new.log.calls) }
        ensures whole { OnOk result (self.new.log.whole ≡ length self.new.log.calls) }
        ensures entries { OnOk result (length self.new.log.entries ≡ length self.old.log.entries + 1) }
        ensures room_same { OnOk result (self.new.log.room ≡ self.old.log.room) }
    {
        let unit = self.log.count();
        let zero = self.polls_by_matches();
        self.log.issue(unit, Part::Ends);
        match make_poll(&mut self.flights, config, zero, mask, requested, turns) {
            Ok(found) => {
                self.log.note_all_issued();
                self.log.take(unit - 1, found.matched as u32);
                self.log.confirm();
                Ok(found.points)
            }
            Err(end) => Err(self.log.stop(end)),
        }
    }
}
