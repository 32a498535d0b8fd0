//! How the accesses of calls come into flights, and flights are sent.
ghost use Rattle.std.specs.Prelude.{◌≡◌, ◌<◌, ◌≤◌, ◌+◌, ◌-◌, ◌++◌, ◌∷◌, [], ℕ, List, Option, None, false, length, slice_get, IfErr, IfOk, OnOk};
ghost use Rattle.std.specs.List.{AllByRecursion};
ghost use Rattle.target_machine.specs.Plain.{Commands, Makes, action_attempt, given_number};
ghost use Rattle.target_machine.specs.declared.access.RegAccess.{RegAccess};
ghost use Rattle.std.specs.Option.{unwrap_or};
ghost use Rattle.probe_core.specs.Probe.{target_of};
ghost use Rattle.batch_packer.specs.SlotList.{slot_at};
ghost use Rattle.access_regs.specs.Costs.{command_cost};
ghost use Rattle.access_regs.specs.Journal.{gives, issued_entries};
ghost use Rattle.target_calls.specs.Asks.{probe_ask};
ghost use Rattle.target_calls.specs.declared.calls.Ask.{Ask};
ghost use Rattle.flight_forms.specs.Packing.{IsTaken};
ghost use Rattle.probe_core.specs.Bench.{BenchState};
ghost use Rattle.target_calls.specs.Journal.{Entry, target_after};
ghost use Rattle.access_calls.specs.Answers.{AtCut};
ghost use Rattle.bench_flights.specs.Full.{IsFull};
ghost use Rattle.access_calls.specs.Issued.{kept_of, lines_before_kept};
ghost use Rattle.access_calls.specs.Left.{IsLeft};
ghost use Rattle.access_regs.specs.Plan.{settle, kept_after_settling};
ghost use Rattle.access_regs.specs.Plans.{accesses_of};
ghost use Rattle.target_calls.specs.declared.journal.Part.TheVariants.{Ends, Leads, Settles};
ghost use Rattle.access_regs.specs.declared.planner.Planner.TheVariants.{Managed};
ghost use Rattle.packed_access.specs.Begun.{StopsAfterLines, strict_entries, target_issued};
ghost use Rattle.packed_access.specs.Actions.{entry_of_call, log_done};
ghost use Rattle.packed_access.specs.Logs.{IsOfCall, IsSoundState, all_confirmed, all_taken, ended_by, result_for};
ghost use Rattle.packed_access.specs.Gives.{Issues, Sends};
ghost use Rattle.packed_access.specs.Frame.{CanAdd, CanCommandLast, Exchanges, Further};
ghost use Rattle.packed_access.specs.Views.{HasSpace, IsAtEnd, IsToIssue, IsToIssueNext, SenderIsSparing, access_view};

use crate::log::CallLog;
use crate::seen::Viewed;
use crate::sender::Sender;
use access_calls::Stop;
use access_regs::Plan;
use bench_flights::Flights;
use target_calls::Part;
use target_machine::{ProbeCall, RegAccess};

// Takes the results of the calls whose entries lie in the flight that came.
pub(crate) fn take_values<F: Flights>(log: &mut CallLog, flights: &F)
    requires open { log.old.end ≡ None }
    requires sound { IsSoundState log.old }
    ensures answer { log.new ≡ all_taken (F.values flights.now) log.old }
    ensures sound { IsSoundState log.new }
{
    for index in log.count_came()..log.count_whole() {
        let word = flights.value(log.pending_place(index));
        log.take(index, word);
    }
}

// The accesses of a plan.
pub(crate) fn list_accesses(plan: &Plan) -> &[RegAccess]
    ensures { result.now ≡ accesses_of plan.now }
{
    let accesses = &plan.accesses[..];
    let count = usize::from(plan.count).min(accesses.len());
    &accesses[..count]
}

impl<F: Flights> Sender<F> {
    // Sends the flight, and takes its values. At an error the access has ended.
    pub(crate) fn send(&mut self) -> Result<(), Stop>
        requires open { self.old.log.end ≡ None }
        ensures gives { Sends result (⟦<Self as Viewed>⟧.view self.old) (⟦<Self as Viewed>⟧.view self.new) (λ rest. rest) }
        ensures last { (m0 : BenchState) (rest front : List Entry) (e : Entry) (more : List Entry) → IsToIssue (⟦<Self as Viewed>⟧.view self.old) rest m0
            → issued_entries F.planner (target_of m0.probe) self.old.log.calls ≡ front ++ e ∷ more → length front + 1 ≡ length self.old.log.entries
            → self.old.log.confirmed < length self.old.log.entries
            → OnOk result (unwrap_or (slot_at (F.values self.new.flights) (length self.old.log.entries - self.old.log.confirmed - 1)) 0
            ≡ given_number (action_attempt (target_after (target_of m0.probe) front) e.action).outcome) }
        ensures full { (m0 : BenchState) (e : Entry) (rest : List Entry) (next : RegAccess) (points : ℕ) → IsToIssue (⟦<Self as Viewed>⟧.view self.old) (e ∷ rest) m0
            → e.action ≡ Makes next → SenderIsSparing (⟦<Self as Viewed>⟧.view self.old) points m0
            → (F.planner ≡ Managed → IsFull (F.limits self.old.flights) (F.accesses self.old.flights) next)
            → OnOk result (SenderIsSparing (⟦<Self as Viewed>⟧.view self.new) points m0) }
        ensures exchanges { Exchanges result (⟦<Self as Viewed>⟧.view self.old) (⟦<Self as Viewed>⟧.view self.new) }
        ensures log { OnOk result (self.new.log ≡ all_confirmed (all_taken (F.values self.new.flights) self.old.log)) }
        ensures ended { IfErr result (λ s. self.new.log ≡ ended_by s self.old.log self.new.log) }
        ensures empty { F.accesses self.new.flights ≡ [] }
        ensures space { OnOk result (HasSpace (⟦<Self as Viewed>⟧.view self.new)) }
        ensures some { IfErr result (λ s. AtCut s (λ r. 0 < length (F.accesses self.old.flights))) }
    {
        match self.flights.send() {
            Ok(()) => {
                take_values(&mut self.log, &self.flights);
                self.log.confirm();
                Ok(())
            }
            Err(end) => Err(self.log.stop(end)),
        }
    }

    // Issues one access of the last call or of a settling; the flight is sent first where it has no room. At an
    // error the access has ended.
    #[tactic(auto, using(crate::proofs::FrameLemmas::keeps_on, crate::proofs::FrameLemmas::keeps_still))]
    pub(crate) fn issue(&mut self, unit: u32, part: Part, access: RegAccess) -> Result<(), Stop>
        requires ready { CanAdd 1 (⟦<Self as Viewed>⟧.view self.old) }
        requires taken { IsTaken access }
        requires unit { IsOfCall (length self.old.log.calls) (record { unit = unit; part = part }) }
        requires later { self.old.log.whole ≤ lines_before_kept (record { unit = unit; part = part }) }
        ensures on { (m0 : BenchState) (e : Entry) (rest : List Entry) → IsToIssue (⟦<Self as Viewed>⟧.view self.old) (e ∷ rest) m0
            → e.action ≡ Makes access → e.forgiving ≡ false → kept_of e ≡ record { unit = unit; part = part }
            → OnOk result (IsToIssue (⟦<Self as Viewed>⟧.view self.new) rest m0) }
        ensures spare { (m0 : BenchState) (e : Entry) (rest : List Entry) (points : ℕ) → IsToIssue (⟦<Self as Viewed>⟧.view self.old) (e ∷ rest) m0
            → e.action ≡ Makes access → SenderIsSparing (⟦<Self as Viewed>⟧.view self.old) points m0
            → OnOk result (SenderIsSparing (⟦<Self as Viewed>⟧.view self.new) points m0) }
        ensures broke { (m0 : BenchState) (rest : List Entry) → IsToIssue (⟦<Self as Viewed>⟧.view self.old) rest m0
            → IfErr result (IsAtEnd (⟦<Self as Viewed>⟧.view self.new) m0) }
        ensures stops { (m0 : BenchState) (rest : List Entry) (answered : Option ℕ) → IsToIssue (⟦<Self as Viewed>⟧.view self.old) rest m0
            → IsLeft (access_view (⟦<Self as Viewed>⟧.view self.new)) answered → IfErr result (StopsAfterLines m0 answered self.old.log.calls self.new.log.lines) }
        ensures further { Further result self.old.managed (⟦<Self as Viewed>⟧.view self.old) (⟦<Self as Viewed>⟧.view self.new) }
        ensures entries { OnOk result (self.new.log.entries ≡ self.old.log.entries ++ record { unit = unit; part = part } ∷ []) }
        ensures pending { OnOk result (self.new.log.confirmed < length self.new.log.entries) }
    {
        if !self.flights.room(access) {
            self.send()?;
        }
        self.flights.push(access);
        self.log.issue(unit, part);
        Ok(())
    }

    // Issues accesses that all are the same to their unit.
    #[tactic(auto, using(access_calls::proofs::KeepLemmas::goes_trans, access_calls::proofs::KeepLemmas::goes_same))]
    pub(crate) fn issue_all(
        &mut self,
        unit: u32,
        part: Part,
        accesses: &[RegAccess],
    ) -> Result<(), Stop>
        requires ready { CanAdd (length accesses.now) (⟦<Self as Viewed>⟧.view self.old) }
        requires taken { AllByRecursion IsTaken accesses.now }
        requires unit { 0 < length accesses.now → IsOfCall (length self.old.log.calls) (record { unit = unit; part = part }) }
        requires later { 0 < length accesses.now → self.old.log.whole ≤ lines_before_kept (record { unit = unit; part = part }) }
        ensures gives { Issues result (⟦<Self as Viewed>⟧.view self.old) (⟦<Self as Viewed>⟧.view self.new) (λ rest. strict_entries unit part accesses.now ++ rest) }
        ensures further { Further result self.old.managed (⟦<Self as Viewed>⟧.view self.old) (⟦<Self as Viewed>⟧.view self.new) }
        ensures entries { OnOk result (length self.new.log.entries ≡ length self.old.log.entries + length accesses.now) }
        ensures pending { OnOk result (0 < length accesses.now → self.new.log.confirmed < length self.new.log.entries) }
    {
        for access in accesses {
            self.issue(unit, part, *access)?;
        }
        Ok(())
    }

    // Issues a read of the last call and what comes before it, sends, and answers the value of the read.
    #[tactic(auto, using(crate::proofs::FrameLemmas::keeps_on))]
    pub(crate) fn read_by(&mut self, unit: u32, accesses: &[RegAccess]) -> Result<u32, Stop>
        requires ready { CanAdd (length accesses.now) (⟦<Self as Viewed>⟧.view self.old) }
        requires some { 0 < length accesses.now }
        requires taken { AllByRecursion IsTaken accesses.now }
        requires unit { IsOfCall (length self.old.log.calls) (record { unit = unit; part = Leads }) }
        requires later { self.old.log.whole ≤ lines_before_kept (record { unit = unit; part = Leads }) }
        ensures gives { Sends result (⟦<Self as Viewed>⟧.view self.old) (⟦<Self as Viewed>⟧.view self.new) (λ rest. strict_entries unit Leads accesses.now ++ rest) }
        ensures value { (m0 : BenchState) (lead : List RegAccess) (a : RegAccess) (rest : List Entry) → accesses.now ≡ lead ++ a ∷ []
            → IsToIssue (⟦<Self as Viewed>⟧.view self.old) (strict_entries unit Leads accesses.now ++ rest) m0
            → IfOk result (λ v. v ≡ gives (target_issued F.planner self.old.log m0) accesses.now) }
        ensures further { Further result self.old.managed (⟦<Self as Viewed>⟧.view self.old) (⟦<Self as Viewed>⟧.view self.new) }
        ensures entries { OnOk result (length self.new.log.entries ≡ length self.old.log.entries + length accesses.now) }
        ensures came { OnOk result (self.new.log.known ≡ self.new.log.whole) }
        ensures empty { OnOk result (F.accesses self.new.flights ≡ []) }
    {
        self.issue_all(unit, Part::Leads, accesses)?;
        let place = self.log.count_pending() - 1;
        self.send()?;
        Ok(self.flights.value(place))
    }

    // Settles the unsettled access port, where there is one, as entries of this unit.
    #[tactic(auto, using(crate::proofs::PlanLemmas::settle_taken, access_regs::proofs::LightLemmas::settle_short))]
    pub(crate) fn settle(&mut self, unit: u32) -> Result<(), Stop>
        requires ready { CanAdd (length (settle self.old.managed)) (⟦<Self as Viewed>⟧.view self.old) }
        requires unit { 0 < length (settle self.old.managed) → IsOfCall (length self.old.log.calls) (record { unit = unit; part = Settles }) }
        requires later { 0 < length (settle self.old.managed) → self.old.log.whole ≤ unit }
        ensures gives { Issues result (⟦<Self as Viewed>⟧.view self.old) (⟦<Self as Viewed>⟧.view self.new)
            (λ rest. strict_entries unit Settles (settle self.old.managed) ++ rest) }
        ensures further { Further result (kept_after_settling self.old.managed) (⟦<Self as Viewed>⟧.view self.old) (⟦<Self as Viewed>⟧.view self.new) }
        ensures entries { OnOk result (length self.new.log.entries ≡ length self.old.log.entries + length (settle self.old.managed)) }
    {
        let plan = self.managed.settle();
        self.managed.note_settled();
        self.issue_all(unit, Part::Settles, list_accesses(&plan))
    }

    // Makes the last call, which is a command of the probe, where all calls before it came.
    #[tactic(auto, using(crate::proofs::FrameLemmas::keeps_on, crate::proofs::FrameLemmas::keeps_still))]
    pub(crate) fn make_last(&mut self, call: ProbeCall) -> Result<u32, Stop>
        requires may { CanCommandLast call (⟦<Self as Viewed>⟧.view self.old) }
        ensures on { (m0 : BenchState) (calls : List Ask) → self.old.log.calls ≡ calls ++ probe_ask call ∷ []
            → IsToIssueNext (⟦<Self as Viewed>⟧.view self.old) (entry_of_call calls (Commands call) ∷ []) m0
            → OnOk result (IsToIssueNext (⟦<Self as Viewed>⟧.view self.new) [] m0) }
        ensures spare { (m0 : BenchState) (calls : List Ask) (points : ℕ) → self.old.log.calls ≡ calls ++ probe_ask call ∷ []
            → IsToIssueNext (⟦<Self as Viewed>⟧.view self.old) (entry_of_call calls (Commands call) ∷ []) m0
            → SenderIsSparing (⟦<Self as Viewed>⟧.view self.old) (points + 1) m0
            → OnOk result (SenderIsSparing (⟦<Self as Viewed>⟧.view self.new) (points + command_cost call) m0) }
        ensures broke { (m0 : BenchState) (calls : List Ask) → self.old.log.calls ≡ calls ++ probe_ask call ∷ []
            → IsToIssueNext (⟦<Self as Viewed>⟧.view self.old) (entry_of_call calls (Commands call) ∷ []) m0
            → IfErr result (IsAtEnd (⟦<Self as Viewed>⟧.view self.new) m0) }
        ensures stops { (m0 : BenchState) (calls : List Ask) (answered : Option ℕ) → self.old.log.calls ≡ calls ++ probe_ask call ∷ []
            → IsToIssueNext (⟦<Self as Viewed>⟧.view self.old) (entry_of_call calls (Commands call) ∷ []) m0
            → IsLeft (access_view (⟦<Self as Viewed>⟧.view self.new)) answered → IfErr result (StopsAfterLines m0 answered self.old.log.calls self.new.log.lines) }
        ensures exchanges { Exchanges result (⟦<Self as Viewed>⟧.view self.old) (⟦<Self as Viewed>⟧.view self.new) }
        ensures log { IfOk result (λ word. self.new.log ≡ log_done self.old.log (record { unit = length self.old.log.calls; part = Ends }) (self.old.log.came)
            (result_for (slice_get self.old.log.calls self.old.log.came) word)) }
    {
        let unit = self.log.count();
        self.log.issue(unit, Part::Ends);
        match self.flights.command(call) {
            Ok(word) => {
                self.log.note_all_issued();
                self.log.take(unit - 1, word);
                self.log.confirm();
                Ok(word)
            }
            Err(end) => Err(self.log.stop(end)),
        }
    }
}
