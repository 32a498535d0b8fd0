//! Flights of a unit that forgives a fault, of which only the last access may fault.
ghost use Rattle.std.specs.Prelude.{if◌then◌else◌, ◌≡◌, ◌<◌, ◌≤◌, ◌+◌, ◌++◌, ◌∷◌, [], Bool, List, None, true, length, IfErr, IfOk, IfSome};
ghost use Rattle.std.specs.List.{AllByRecursion};
ghost use Rattle.target_machine.specs.Plain.{Action, select_of};
ghost use Rattle.target_machine.specs.State.{TargetState};
ghost use Rattle.target_machine.specs.declared.access.RegAccess.{RegAccess};
ghost use Rattle.target_machine.specs.declared.unit.Unit.{Unit as AccessUnit};
ghost use Rattle.flight_forms.specs.Packing.{IsTaken};
ghost use Rattle.probe_core.specs.Bench.{BenchState, StepsTo};
ghost use Rattle.access_calls.specs.Issued.{lines_before_kept};
ghost use Rattle.bench_flights.specs.Clearing.{IsOneTransfer};
ghost use Rattle.bench_flights.specs.Flown.{LeavesBench};
ghost use Rattle.packed_access.specs.Forgiving.{AreNextAccesses, LeadsCame, with_accesses};
ghost use Rattle.packed_access.specs.Sparing.{WentFew};
ghost use Rattle.batch_packer.specs.Flying.{CanFly};
ghost use Rattle.packed_access.specs.Logs.{IsOfCall};
ghost use Rattle.access_regs.specs.Kept.{Kept, kept_with_select};
ghost use Rattle.access_regs.specs.Plan.{select_value};
ghost use Rattle.access_regs.specs.declared.planner.Planner.TheVariants.{Managed};
ghost use Rattle.packed_access.specs.Gives.{TriesNext};
ghost use Rattle.packed_access.specs.Frame.{CanAdd, CanTry, Tries};
ghost use Rattle.packed_access.specs.Views.{HasSpace, IsTried, SenderIsBroken};

use crate::seen::Viewed;
use crate::sender::Sender;
use access_calls::Stop;
use bench_flights::Flights;
use target_calls::Part;
use target_calls::accesses::select;
use target_machine::registers::CLEAR_ALL;
use target_machine::{ProbeCall, RegAccess};

impl<F: Flights> Sender<F> {
    // Pushes accesses of the last call, for which there is room, as the same to their unit.
    fn push_all(&mut self, unit: u32, part: Part, accesses: &[RegAccess])
        requires ready { CanAdd (length accesses.now) (⟦<Self as Viewed>⟧.view self.old) }
        requires taken { AllByRecursion IsTaken accesses.now }
        requires few { length (F.accesses self.old.flights) + length accesses.now ≤ 4 }
        requires managed { 0 < length accesses.now → F.planner ≡ Managed }
        requires space { HasSpace (⟦<Self as Viewed>⟧.view self.old) }
        requires unit { IsOfCall (length self.old.log.calls) (record { unit = unit; part = part }) }
        requires later { self.old.log.came ≤ lines_before_kept (record { unit = unit; part = part }) }
        ensures accesses { F.accesses self.new.flights ≡ F.accesses self.old.flights ++ accesses.now }
        ensures log { self.new.log ≡ with_accesses self.old.log unit part accesses.now }
        ensures space { (next : RegAccess) → IsTaken next → length (F.accesses self.new.flights) < 4 → F.has_room self.new.flights next ≡ true }
        ensures managed { self.new.managed ≡ self.old.managed }
        ensures keeps { LeavesBench F.reported F.state F.identity F.limits self.old.flights self.new.flights }
    {
        for access in accesses {
            self.flights.push(*access);
            self.log.issue(unit, part);
        }
    }

    // Makes accesses of the last call as one flight, of which only the last may fault. Answers what the last gave, or
    // `None` where it faulted, the unit forgives that, and STICKYERR was cleared. Where `ends` it is the access that the
    // unit is for.
    fn try_together(
        &mut self,
        leads: &[RegAccess],
        last: RegAccess,
        ends: bool,
        forgive: bool,
    ) -> Result<Option<u32>, Stop>
        requires ready { CanTry (length leads.now + 2) (⟦<Self as Viewed>⟧.view self.old) }
        requires managed { 0 < length leads.now → F.planner ≡ Managed }
        requires one { IsOneTransfer (leads.now ++ last ∷ []) }
        requires taken { AllByRecursion IsTaken leads.now }
        requires last { IsTaken last }
        ensures gives { TriesNext result (⟦<Self as Viewed>⟧.view self.old) (⟦<Self as Viewed>⟧.view self.new) forgive leads.now last ends }
        ensures tries { Tries result (length leads.now + 2) (⟦<Self as Viewed>⟧.view self.old) (⟦<Self as Viewed>⟧.view self.new) }
        ensures packets { F.planner ≡ Managed → IfOk result (λ w. StepsTo (λ m o. CanFly m → WentFew w m o) (F.state self.old.flights) (F.state self.new.flights)) }
        ensures space { IfOk result (λ w. IfSome w (λ _. HasSpace (⟦<Self as Viewed>⟧.view self.new))) }
        ensures unskipped { IfOk result (λ w. IfSome w (λ _. length self.new.log.entries ≤ length self.old.log.entries + (length leads.now + 1))) }
        ensures managed { self.new.managed ≡ self.old.managed }
    {
        let unit = self.log.count();
        let place = leads.len() as u32;
        self.push_all(unit, Part::Leads, leads);
        self.flights.push(last);
        self.log
            .issue(unit, if ends { Part::Ends } else { Part::Leads });
        match self.flights.send() {
            Ok(()) => {
                self.log.confirm();
                return Ok(Some(self.flights.value(place)));
            }
            Err(end) => {
                if !(forgive && self.flights.can_resume()) {
                    return Err(self.log.stop(end));
                }
            }
        }
        self.flights.resume();
        self.log.confirm_entries();
        self.log.issue(unit, Part::Skips { attempted: !ends });
        match self.flights.command(ProbeCall::Abort(CLEAR_ALL)) {
            Ok(_) => {
                self.log.confirm();
                Ok(None)
            }
            Err(end) => Err(self.log.stop(end)),
        }
    }

    // Makes accesses that lead to the one that the last call's unit is for, each in a flight of its own. Answers whether
    // they came: none of them faults.
    fn try_leads(&mut self, leads: &[RegAccess], forgive: bool) -> Result<bool, Stop>
        requires ready { CanTry (length leads.now + 2) (⟦<Self as Viewed>⟧.view self.old) }
        requires taken { AllByRecursion IsTaken leads.now }
        ensures on { (m0 : BenchState) (asked : AccessUnit) (k : Kept) (t : TargetState) (made : List RegAccess)
            (last : RegAccess) (ends : Bool) (rest more : List Action)
            → IsTried (⟦<Self as Viewed>⟧.view self.old) forgive asked k t made rest m0 → AreNextAccesses asked t made leads.now last ends rest more
            → IfOk result (λ came. LeadsCame came F.planner forgive (F.state self.new.flights) self.new.log asked k t made leads.now last more m0) }
        ensures broke { (m0 : BenchState) (asked : AccessUnit) (k : Kept) (t : TargetState) (made : List RegAccess)
            (last : RegAccess) (ends : Bool) (rest more : List Action)
            → IsTried (⟦<Self as Viewed>⟧.view self.old) forgive asked k t made rest m0 → AreNextAccesses asked t made leads.now last ends rest more
            → IfErr result (SenderIsBroken (⟦<Self as Viewed>⟧.view self.new) self.old.log.calls m0) }
        ensures tries { Tries result (length leads.now + 2) (⟦<Self as Viewed>⟧.view self.old) (⟦<Self as Viewed>⟧.view self.new) }
        ensures space { IfOk result (λ came. came ≡ true → HasSpace (⟦<Self as Viewed>⟧.view self.new)) }
        ensures entries { IfOk result (λ came. length self.new.log.entries ≤ length self.old.log.entries + (length leads.now + (if came then 0 else 1))) }
        ensures managed { self.new.managed ≡ self.old.managed }
    {
        for lead in leads {
            match self.try_together(&[], *lead, false, forgive) {
                Ok(Some(_)) => {}
                Ok(None) => return Ok(false),
                Err(stop) => return Err(stop),
            }
        }
        Ok(true)
    }

    // The same, in one flight, or each access in a flight of its own.
    pub(crate) fn try_flight(
        &mut self,
        leads: &[RegAccess],
        last: RegAccess,
        ends: bool,
        forgive: bool,
    ) -> Result<Option<u32>, Stop>
        requires ready { CanTry 5 (⟦<Self as Viewed>⟧.view self.old) }
        requires one { IsOneTransfer (leads.now ++ last ∷ []) }
        requires taken { AllByRecursion IsTaken leads.now }
        requires last { IsTaken last }
        ensures gives { TriesNext result (⟦<Self as Viewed>⟧.view self.old) (⟦<Self as Viewed>⟧.view self.new) forgive leads.now last ends }
        ensures tries { Tries result (length leads.now + 2) (⟦<Self as Viewed>⟧.view self.old) (⟦<Self as Viewed>⟧.view self.new) }
        ensures packets { F.planner ≡ Managed → IfOk result (λ w. StepsTo (λ m o. CanFly m → WentFew w m o) (F.state self.old.flights) (F.state self.new.flights)) }
        ensures space { IfOk result (λ w. IfSome w (λ _. HasSpace (⟦<Self as Viewed>⟧.view self.new))) }
        ensures managed { self.new.managed ≡ self.old.managed }
    {
        if !F::plans_alone() {
            return self.try_together(leads, last, ends, forgive);
        }
        match self.try_leads(leads, forgive) {
            Ok(true) => self.try_together(&[], last, ends, forgive),
            Ok(false) => Ok(None),
            Err(stop) => Err(stop),
        }
    }

    // Makes an access of this bank of an access port.
    pub(crate) fn try_port(
        &mut self,
        ap: u8,
        bank: u8,
        access: RegAccess,
        ends: bool,
        forgive: bool,
    ) -> Result<Option<u32>, Stop>
        requires ready { CanTry 5 (⟦<Self as Viewed>⟧.view self.old) }
        requires calm { self.old.managed.unsettled ≡ None }
        requires bank { bank < 16 }
        requires taken { IsTaken access }
        ensures gives { TriesNext result (⟦<Self as Viewed>⟧.view self.old) (⟦<Self as Viewed>⟧.view self.new) forgive (select_of ap bank ∷ []) access ends }
        ensures tries { Tries result 3 (⟦<Self as Viewed>⟧.view self.old) (⟦<Self as Viewed>⟧.view self.new) }
        ensures packets { F.planner ≡ Managed → IfOk result (λ w. StepsTo (λ m o. CanFly m → WentFew w m o) (F.state self.old.flights) (F.state self.new.flights)) }
        ensures space { IfOk result (λ w. IfSome w (λ _. HasSpace (⟦<Self as Viewed>⟧.view self.new))) }
        ensures managed { self.new.managed ≡ kept_with_select self.old.managed (select_value ap bank) }
    {
        let write = select(ap, bank);
        self.managed.note_select(write.value);
        self.try_flight(&[write], access, ends, forgive)
    }
}
