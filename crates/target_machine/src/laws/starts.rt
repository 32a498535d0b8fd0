//! The target at which runs begin.
ghost use Rattle.std.specs.Prelude.{◌≡◌, ◌^◌, ◌<◌, List, false};
ghost use Rattle.target_machine.specs.Fresh.{HaveStoredCsw, IsFresh};
ghost use Rattle.target_machine.specs.Lists.{PassTo};
ghost use Rattle.target_machine.specs.Plain.{Action, action_attempt, command_attempt, forgives, is_fault};
ghost use Rattle.target_machine.specs.Ranges.{IsTargetJob};
ghost use Rattle.target_machine.specs.Start.{start};
ghost use Rattle.target_machine.specs.State.{TargetState};
ghost use Rattle.target_machine.specs.declared.job.TargetJob.{TargetJob};

/// At the start of a job STICKYERR is clear, the count that power-up takes can be reached, and each CSW has stored bits
/// alone.
pub fn start_is_fresh()
    ensures { (job : TargetJob) → IsTargetJob job → IsFresh (start job) }
{}

/// It stays so after an action that does not fault, after actions of which none faults, and after the write of ABORT
/// that follows a fault that is forgiven. STICKYERR is set exactly where an action faults.
pub fn passing_stays_fresh()
    ensures sticky { (t : TargetState) (action : Action) → t.sticky ≡ false → (action_attempt t action).next.sticky ≡ is_fault (action_attempt t action).outcome }
    ensures one { (t : TargetState) (action : Action) → IsFresh t → is_fault (action_attempt t action).outcome ≡ false → IsFresh (action_attempt t action).next }
    ensures list { (t u : TargetState) (actions : List Action) → IsFresh t → PassTo t actions u → IsFresh u }
    ensures forgiven { (t : TargetState) → t.power_reads < 2 ^ 32 → HaveStoredCsw t → IsFresh (command_attempt t forgives).next }
{}
