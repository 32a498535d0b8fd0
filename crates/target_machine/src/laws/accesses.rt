//! What each register access answers and leaves.
ghost use Rattle.std.specs.Prelude.{◌≡◌, true, false};
ghost use Rattle.target_machine.specs.Attempt.{attempt, gives_rdbuff, register};
ghost use Rattle.target_machine.specs.Fresh.{HaveStoredCsw};
ghost use Rattle.target_machine.specs.Laws.{AnswerAlike, ChangesNoAp, ChangesOneAp, Keeps, holds_memory};
ghost use Rattle.target_machine.specs.Plain.{is_fault};
ghost use Rattle.target_machine.specs.Registers.{rdbuff_address};
ghost use Rattle.target_machine.specs.State.{Agree, TargetState};
ghost use Rattle.target_machine.specs.declared.access.Outcome.TheVariants as outcome;
ghost use Rattle.target_machine.specs.declared.access.RegAccess.{RegAccess};

/// Where STICKYERR was clear it is set exactly where the access faults. A fault changes nothing else.
pub fn faults_set_stickyerr()
    ensures first { (t : TargetState) (a : RegAccess) → t.sticky ≡ false → (attempt t a).next.sticky ≡ is_fault (attempt t a).outcome }
    ensures raised { (t : TargetState) (a : RegAccess) → t.sticky ≡ false → (attempt t a).next.sticky ≡ true → (attempt t a).outcome ≡ outcome.Fault }
    ensures fault { (t : TargetState) (a : RegAccess) → (attempt t a).outcome ≡ outcome.Fault → (attempt t a).next ≡ record t { sticky = true } }
{}

/// An access of an AP leaves the other APs, and of the debug port all but RDBUFF and STICKYERR.
pub fn an_access_of_one_ap()
    ensures { (t : TargetState) (a : RegAccess) → a.ap ≡ true → ChangesOneAp t (attempt t a) }
{}

/// An access of the debug port leaves the APs and the memory.
pub fn an_access_of_the_dp()
    ensures { (t : TargetState) (a : RegAccess) → a.ap ≡ false → ChangesNoAp t (attempt t a).next }
{}

/// An access of a register other than DRW and BD0 to BD3 leaves the memory.
pub fn an_access_of_no_memory()
    ensures { (t : TargetState) (a : RegAccess) → holds_memory (register t a.addr) ≡ false → (attempt t a).next.words ≡ t.words }
{}

/// An access leaves DPIDR, the count that power-up takes, the way of increments, the words of a reset, and the lines.
pub fn an_access_keeps()
    ensures { (t : TargetState) (a : RegAccess) → Keeps t (attempt t a).next }
{}

/// Where each CSW has stored bits alone, it has them alone after an access.
pub fn csw_keeps_stored_bits()
    ensures { (t : TargetState) (a : RegAccess) → HaveStoredCsw t → HaveStoredCsw (attempt t a).next }
{}

/// An access that does not ask for RDBUFF answers the same on targets that agree, and leaves targets that agree.
pub fn rdbuff_decides_nothing()
    ensures { (t u : TargetState) (a : RegAccess) → Agree t u → gives_rdbuff a ≡ false → AnswerAlike (attempt t a) (attempt u a) }
{}

/// A read of an AP that leaves STICKYERR clear left its value in RDBUFF. A read of RDBUFF changes nothing.
pub fn what_rdbuff_has()
    ensures posted { (t : TargetState) (a : RegAccess) → a.ap ≡ true → a.read ≡ true → (attempt t a).next.sticky ≡ false
        → (attempt t a).outcome ≡ outcome.Value (attempt t a).next.rdbuff }
    ensures read { (t : TargetState) (a : RegAccess) → a.ap ≡ false → a.read ≡ true → a.addr ≡ rdbuff_address → (attempt t a).next ≡ t }
{}
