//! Asking a unit that forgives nothing and is no poll.
ghost use Rattle.std.specs.Prelude.{◌&&◌, ◌≡◌, ◌<◌, ◌+◌, ◌-◌, ◌++◌, ◌∷◌, [], List, None, false, true, length, IfOk, OnOk};
ghost use Rattle.probe_core.specs.Bench.{BenchState};
ghost use Rattle.access_regs.specs.Entries.{target_by};
ghost use Rattle.access_regs.specs.Journal.{by_cfg, is_alone, issue_of};
ghost use Rattle.target_machine.specs.Plain.{may_forgive};
ghost use Rattle.packed_access.specs.Planned.{HasShown, reads_before};
ghost use Rattle.packed_access.specs.Begun.{steps_left, target_issued};
ghost use Rattle.packed_access.specs.Logs.{asks_of, most_entries, with_needs};
ghost use Rattle.target_calls.specs.World.{small_now, start_world};
ghost use Rattle.target_calls.specs.declared.calls.Ask.{Ask};
ghost use Rattle.target_calls.specs.Asks.{is_forgiving};
ghost use Rattle.probe_core.specs.Probe.{target_of};
ghost use Rattle.target_machine.specs.declared.unit.Call.TheVariants.{Access};
ghost use Rattle.packed_access.specs.Gives.{AsksFor, Plans};
ghost use Rattle.packed_access.specs.Frame.{AsksWhole, CanIssue, IsSoundAccess, IssuesFew, SenderSteps};
ghost use Rattle.packed_access.specs.Views.{IsToIssue, SenderHasAsked, SenderHasBegun};

use crate::seen::Viewed;
use crate::sender::Sender;
use access_calls::Stop;
use bench_flights::Flights;
use target_machine::Unit;

impl<F: Flights> Sender<F> {
    // Issues the last call's unit, which is no poll, with a read of CFG before it where that is needed. Answers
    // whether CFG shows that the access port has no large addresses; nothing more is issued then.
    #[tactic(auto, using(crate::proofs::FrameLemmas::keeps_on))]
    fn issue_by_cfg(&mut self, unit: &Unit) -> Result<bool, Stop>
        requires ready { CanIssue 9 (⟦<Self as Viewed>⟧.view self.old) }
        requires sound { IsSoundAccess unit.now }
        ensures gives { Plans result (⟦<Self as Viewed>⟧.view self.old) (⟦<Self as Viewed>⟧.view self.new)
            (λ m0. by_cfg (target_issued F.planner self.old.log m0) self.old.managed unit.now) }
        ensures kept { (m0 : BenchState)
            → IsToIssue (⟦<Self as Viewed>⟧.view self.old) (steps_left self.old.log (by_cfg (target_issued F.planner self.old.log m0) self.old.managed unit.now).steps) m0
            → OnOk result (self.new.managed ≡ (by_cfg (target_issued F.planner self.old.log m0) self.old.managed unit.now).kept) }
        ensures small { (m0 : BenchState) (calls : List Ask) (ask : Ask) → self.old.log.calls ≡ calls ++ ask ∷ []
            → IsToIssue (⟦<Self as Viewed>⟧.view self.old) (steps_left self.old.log (by_cfg (target_issued F.planner self.old.log m0) self.old.managed unit.now).steps) m0
            → IfOk result (HasShown (target_of m0.probe) calls (target_issued F.planner self.old.log m0) self.old.managed unit.now) }
        ensures asks { (m0 : BenchState)
            → IsToIssue (⟦<Self as Viewed>⟧.view self.old) (steps_left self.old.log (by_cfg (target_issued F.planner self.old.log m0) self.old.managed unit.now).steps) m0
            → OnOk result (asks_of self.new.log
            ≡ asks_of (with_needs self.old.log (reads_before (target_issued F.planner self.old.log m0) self.old.managed unit.now) (length self.old.log.calls - 1))) }
        ensures issues { IssuesFew result 9 (⟦<Self as Viewed>⟧.view self.old) (⟦<Self as Viewed>⟧.view self.new) }
        ensures empty { IfOk result (λ small. small ≡ true → F.accesses self.new.flights ≡ []) }
        ensures pending { IfOk result (λ small. small ≡ false → self.new.log.confirmed < length self.new.log.entries) }
    {
        if !self.managed.needs_cfg(unit) {
            self.issue_by_csw(unit)?;
            return Ok(false);
        }
        let large = self.read_cfg(unit)?;
        if !large {
            return Ok(true);
        }
        self.issue_by_csw(unit)?;
        Ok(false)
    }

    // Issues the last call's unit, which forgives nothing and is no poll, with a settling before it where that is
    // needed; before the first call nothing is unsettled. Answers the same.
    #[tactic(auto, using(crate::proofs::FrameLemmas::keeps_on, access_regs::proofs::LightLemmas::settle_short))]
    fn issue_planned(&mut self, unit: &Unit) -> Result<bool, Stop>
        requires ready { CanIssue 11 (⟦<Self as Viewed>⟧.view self.old) }
        requires sound { IsSoundAccess unit.now }
        requires planned { (is_alone F.planner false && may_forgive (Access unit.now)) ≡ false }
        ensures gives { AsksFor result (⟦<Self as Viewed>⟧.view self.old) (⟦<Self as Viewed>⟧.view self.new)
            (λ m0 ask. (ask.call ≡ Access unit.now) × (is_forgiving ask ≡ false)) (λ s m0. IsToIssue s [] m0) }
        ensures kept { (m0 : BenchState) (calls : List Ask) (ask : Ask) → ask.call ≡ Access unit.now → is_forgiving ask ≡ false
            → SenderHasAsked (⟦<Self as Viewed>⟧.view self.old) calls ask m0
            → OnOk result (self.new.managed ≡ (issue_of F.planner (target_by F.planner (target_of m0.probe) calls) self.old.managed ask).kept) }
        ensures small { (m0 : BenchState) (calls : List Ask) (ask : Ask) → ask.call ≡ Access unit.now → is_forgiving ask ≡ false
            → SenderHasAsked (⟦<Self as Viewed>⟧.view self.old) calls ask m0
            → IfOk result (λ small. small ≡ small_now (start_world (target_of m0.probe) None) calls ask) }
        ensures issues { IssuesFew result 11 (⟦<Self as Viewed>⟧.view self.old) (⟦<Self as Viewed>⟧.view self.new) }
        ensures empty { IfOk result (λ small. small ≡ true → F.accesses self.new.flights ≡ []) }
        ensures pending { IfOk result (λ small. small ≡ false → self.new.log.confirmed < length self.new.log.entries) }
    {
        let before = self.log.count() - 1;
        if before == 0 || !self.managed.needs_settle(unit) {
            return self.issue_by_cfg(unit);
        }
        self.settle(before)?;
        self.issue_by_cfg(unit)
    }

    // Asks a unit that forgives nothing and is no poll. Answers whether it ended because its access port has no large
    // addresses: then it has come, with the result 0.
    #[tactic(auto, using(crate::proofs::FrameLemmas::keeps_on, crate::proofs::FrameLemmas::keeps_still, access_regs::proofs::LightLemmas::settle_short))]
    pub(crate) fn ask_planned(&mut self, unit: &Unit) -> Result<bool, Stop>
        requires ready { CanIssue most_entries (⟦<Self as Viewed>⟧.view self.old) }
        requires sound { IsSoundAccess unit.now }
        requires planned { (is_alone F.planner false && may_forgive (Access unit.now)) ≡ false }
        ensures gives { AsksFor result (⟦<Self as Viewed>⟧.view self.old) (⟦<Self as Viewed>⟧.view self.new)
            (λ m0 ask. (ask.call ≡ Access unit.now) × (is_forgiving ask ≡ false)) SenderHasBegun }
        ensures small { (m0 : BenchState) (calls : List Ask) (ask : Ask) → ask.call ≡ Access unit.now → is_forgiving ask ≡ false
            → SenderHasAsked (⟦<Self as Viewed>⟧.view self.old) calls ask m0
            → IfOk result (λ small. small ≡ small_now (start_world (target_of m0.probe) None) calls ask) }
        ensures step { SenderSteps result (⟦<Self as Viewed>⟧.view self.old) (⟦<Self as Viewed>⟧.view self.new) }
        ensures asks { AsksWhole result (⟦<Self as Viewed>⟧.view self.old) (⟦<Self as Viewed>⟧.view self.new) }
    {
        match self.issue_planned(unit) {
            Ok(false) => {
                self.log.note_all_issued();
                Ok(false)
            }
            Ok(true) => {
                self.log.note_all_issued();
                let count = self.log.count();
                self.log.take(count - 1, 0);
                self.log.confirm();
                Ok(true)
            }
            Err(stop) => Err(stop),
        }
    }
}
