//! Units that forgive nothing.
ghost use Rattle.std.specs.Prelude.{◌≡◌, ◌<◌, ◌≤◌, ◌+◌, ◌-◌, ◌++◌, ◌∷◌, [], ℕ, List, true, length, IfOk, OnOk};
ghost use Rattle.dap_base.specs.Bits.{has_bit};
ghost use Rattle.target_machine.specs.Registers.{cfg_la};
ghost use Rattle.target_machine.specs.Sound.{IsSound};
ghost use Rattle.probe_core.specs.Bench.{BenchState};
ghost use Rattle.target_calls.specs.Journal.{Entry};
ghost use Rattle.target_calls.specs.declared.journal.Part.TheVariants.{Ends, Leads};
ghost use Rattle.target_machine.specs.Counts.{one_if};
ghost use Rattle.access_regs.specs.Journal.{by_csw, gives, port_of};
ghost use Rattle.access_regs.specs.Plan.{cfg_plan, first_plan, last_access, leads, kept_after_csw, learned_cfg, kept_after_plan, needs_cfg, needs_csw};
ghost use Rattle.bench_flights.specs.Flown.{IsSetTo};
ghost use Rattle.packed_access.specs.Begun.{steps_left, strict_entries, target_issued};
ghost use Rattle.packed_access.specs.Logs.{asks_of, most_entries, with_needs};
ghost use Rattle.target_machine.specs.declared.unit.Call.TheVariants.{Access};
ghost use Rattle.target_machine.specs.declared.unit.Unit.TheVariants as unit;
ghost use Rattle.packed_access.specs.Gives.{AsksFor, Issues, Plans, Reads};
ghost use Rattle.packed_access.specs.Frame.{AsksWhole, CanIssue, Further, IsSoundAccess, IssuesFew, SenderSteps};
ghost use Rattle.packed_access.specs.Views.{IsPaid, IsToIssue, SenderHasBegun};
ghost use Rattle.target_machine.specs.Lines.{grown_counter};

use crate::issuing::list_accesses;
use crate::seen::Viewed;
use crate::sender::{Sender, count_points};
use access_calls::Stop;
use bench_flights::Flights;
use probe_core::Config;
use target_calls::Part;
use target_machine::Unit;

// The access port of a memory or AP unit.
pub(crate) fn port_of(unit: &Unit) -> u8
    ensures { result ≡ port_of unit.now }
{
    match *unit {
        Unit::Memory { ap, .. } | Unit::Ap { ap, .. } => ap,
        _ => 0,
    }
}

impl<F: Flights> Sender<F> {
    // Reads CFG of the unit's access port, and answers whether the port has large addresses.
    #[tactic(auto, using(crate::proofs::FrameLemmas::keeps_on, crate::proofs::PlanLemmas::cfg_planned))]
    pub(crate) fn read_cfg(&mut self, unit: &Unit) -> Result<bool, Stop>
        requires unknown { needs_cfg self.old.managed unit.now ≡ true }
        requires ready { CanIssue 2 (⟦<Self as Viewed>⟧.view self.old) }
        ensures gives { Reads result (⟦<Self as Viewed>⟧.view self.old) (⟦<Self as Viewed>⟧.view self.new)
            (λ rest. strict_entries (length self.old.log.calls) Leads (cfg_plan self.old.managed (port_of unit.now)) ++ rest)
            (λ m0. learned_cfg self.old.managed (port_of unit.now)
            (gives (target_issued F.planner self.old.log m0) (cfg_plan self.old.managed (port_of unit.now)))) }
        ensures spare { (m0 : BenchState) (rest : List Entry) (left : ℕ)
            → IsToIssue (⟦<Self as Viewed>⟧.view self.old) (strict_entries (length self.old.log.calls) Leads (cfg_plan self.old.managed (port_of unit.now)) ++ rest) m0
            → IsPaid (⟦<Self as Viewed>⟧.view self.old) left m0 → OnOk result (IsPaid (⟦<Self as Viewed>⟧.view self.new) left m0) }
        ensures large { (m0 : BenchState) (rest : List Entry)
            → IsToIssue (⟦<Self as Viewed>⟧.view self.old) (strict_entries (length self.old.log.calls) Leads (cfg_plan self.old.managed (port_of unit.now)) ++ rest) m0
            → IfOk result (λ large. large ≡ has_bit (gives (target_issued F.planner self.old.log m0) (cfg_plan self.old.managed (port_of unit.now))) cfg_la) }
        ensures issues { IssuesFew result 2 (⟦<Self as Viewed>⟧.view self.old) (⟦<Self as Viewed>⟧.view self.new) }
        ensures empty { OnOk result (F.accesses self.new.flights ≡ []) }
        ensures places { OnOk result (self.new.log.places ≡ self.old.log.places) }
        ensures asks { OnOk result (asks_of self.new.log
            ≡ record { calls = self.old.log.calls; needs = grown_counter self.old.log.needs 1; fence = length self.old.log.calls - 1 }) }
        ensures fenced { OnOk result (self.new.log.fence ≤ self.new.log.known) }
    {
        let plan = self.managed.cfg_plan(unit);
        let number = self.log.count();
        let cfg = self.read_by(number, list_accesses(&plan))?;
        self.log.need(1, number - 1);
        Ok(self.managed.learn_cfg(port_of(unit), cfg))
    }

    // Reads CSW of the unit's access port, which is not known.
    #[tactic(auto, using(crate::proofs::FrameLemmas::keeps_on, crate::proofs::PlanLemmas::first_planned))]
    fn read_csw(&mut self, unit: &Unit) -> Result<(), Stop>
        requires unknown { needs_csw self.old.managed unit.now ≡ true }
        requires ready { CanIssue 2 (⟦<Self as Viewed>⟧.view self.old) }
        ensures gives { Reads result (⟦<Self as Viewed>⟧.view self.old) (⟦<Self as Viewed>⟧.view self.new)
            (λ rest. strict_entries (length self.old.log.calls) Leads (first_plan self.old.managed (port_of unit.now)) ++ rest)
            (λ m0. kept_after_csw self.old.managed (port_of unit.now)
            (gives (target_issued F.planner self.old.log m0) (first_plan self.old.managed (port_of unit.now)))) }
        ensures spare { (m0 : BenchState) (rest : List Entry) (left : ℕ)
            → IsToIssue (⟦<Self as Viewed>⟧.view self.old) (strict_entries (length self.old.log.calls) Leads (first_plan self.old.managed (port_of unit.now)) ++ rest) m0
            → IsPaid (⟦<Self as Viewed>⟧.view self.old) left m0 → OnOk result (IsPaid (⟦<Self as Viewed>⟧.view self.new) left m0) }
        ensures issues { IssuesFew result 2 (⟦<Self as Viewed>⟧.view self.old) (⟦<Self as Viewed>⟧.view self.new) }
        ensures empty { OnOk result (F.accesses self.new.flights ≡ []) }
        ensures places { OnOk result (self.new.log.places ≡ self.old.log.places) }
        ensures asks { OnOk result (asks_of self.new.log
            ≡ record { calls = self.old.log.calls; needs = grown_counter self.old.log.needs 1; fence = length self.old.log.calls - 1 }) }
        ensures fenced { OnOk result (self.new.log.fence ≤ self.new.log.known) }
    {
        let plan = self.managed.first_plan(unit);
        let number = self.log.count();
        let csw = self.read_by(number, list_accesses(&plan))?;
        self.log.need(1, number - 1);
        self.managed.learn(port_of(unit), csw);
        Ok(())
    }

    // Issues the plan of the last call's unit, which is no poll.
    #[tactic(auto, using(crate::proofs::FrameLemmas::keeps_on, crate::proofs::PlanLemmas::planned))]
    fn issue_unit(&mut self, unit: &Unit) -> Result<(), Stop>
        requires ready { CanIssue 5 (⟦<Self as Viewed>⟧.view self.old) }
        requires sound { IsSound unit.now }
        ensures gives { Issues result (⟦<Self as Viewed>⟧.view self.old) (⟦<Self as Viewed>⟧.view self.new)
            (λ rest. strict_entries (length self.old.log.calls) Leads (leads self.old.managed unit.now)
            ++ (strict_entries (length self.old.log.calls) Ends (last_access unit.now ∷ []) ++ rest)) }
        ensures further { Further result (kept_after_plan self.old.managed unit.now) (⟦<Self as Viewed>⟧.view self.old) (⟦<Self as Viewed>⟧.view self.new) }
        ensures entries { OnOk result (length self.new.log.entries ≤ length self.old.log.entries + 5) }
        ensures pending { OnOk result (self.new.log.confirmed < length self.new.log.entries) }
    {
        let plan = self.managed.plan(unit);
        self.managed.note_made(unit);
        let accesses = list_accesses(&plan);
        let last = accesses.len() - 1;
        let number = self.log.count();
        self.issue_all(number, Part::Leads, &accesses[..last])?;
        self.issue(number, Part::Ends, accesses[last])
    }

    // Issues the last call's unit, which is no poll, with a read of CSW before it where that is not known.
    #[tactic(auto, using(crate::proofs::FrameLemmas::keeps_on))]
    pub(crate) fn issue_by_csw(&mut self, unit: &Unit) -> Result<(), Stop>
        requires ready { CanIssue 7 (⟦<Self as Viewed>⟧.view self.old) }
        requires sound { IsSoundAccess unit.now }
        ensures gives { Plans result (⟦<Self as Viewed>⟧.view self.old) (⟦<Self as Viewed>⟧.view self.new)
            (λ m0. by_csw (target_issued F.planner self.old.log m0) self.old.managed unit.now) }
        ensures kept { (m0 : BenchState)
            → IsToIssue (⟦<Self as Viewed>⟧.view self.old) (steps_left self.old.log (by_csw (target_issued F.planner self.old.log m0) self.old.managed unit.now).steps) m0
            → OnOk result (self.new.managed ≡ (by_csw (target_issued F.planner self.old.log m0) self.old.managed unit.now).kept) }
        ensures issues { IssuesFew result 7 (⟦<Self as Viewed>⟧.view self.old) (⟦<Self as Viewed>⟧.view self.new) }
        ensures pending { OnOk result (self.new.log.confirmed < length self.new.log.entries) }
        ensures asks { OnOk result (asks_of self.new.log
            ≡ asks_of (with_needs self.old.log (one_if (needs_csw self.old.managed unit.now)) (length self.old.log.calls - 1))) }
    {
        if !self.managed.needs_csw(unit) {
            return self.issue_unit(unit);
        }
        self.read_csw(unit)?;
        self.issue_unit(unit)
    }

    // Asks a poll.
    #[tactic(auto, using(crate::proofs::FrameLemmas::keeps_on, crate::proofs::FrameLemmas::keeps_still))]
    pub(crate) fn ask_poll(
        &mut self,
        config: Config,
        mask: u32,
        requested: u32,
        turns: u32,
    ) -> Result<(), Stop>
        requires ready { CanIssue most_entries (⟦<Self as Viewed>⟧.view self.old) }
        requires sound { IsSound (unit.Poll mask requested turns) }
        ensures gives { AsksFor result (⟦<Self as Viewed>⟧.view self.old) (⟦<Self as Viewed>⟧.view self.new)
            (λ m0 ask. (IsSetTo config.idle config.retry m0) × (ask.call ≡ Access (unit.Poll mask requested turns))) SenderHasBegun }
        ensures step { SenderSteps result (⟦<Self as Viewed>⟧.view self.old) (⟦<Self as Viewed>⟧.view self.new) }
        ensures asks { AsksWhole result (⟦<Self as Viewed>⟧.view self.old) (⟦<Self as Viewed>⟧.view self.new) }
    {
        self.send()?;
        let points = self.poll_last(config, mask, requested, turns)?;
        let count = self.log.count();
        self.log.need(count_points::<F>(points), count);
        Ok(())
    }
}
