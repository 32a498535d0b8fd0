//! Numbers stay in range.
ghost use Rattle.std.specs.Prelude.{◌≤◌, ℕ, List};
ghost use Rattle.std.specs.List.{AllByRecursion};
ghost use Rattle.target_machine.specs.Attempt.{attempt};
ghost use Rattle.target_machine.specs.InRange.{IsActionInRange, IsAttemptInRange, IsInRange, IsJobInRange, IsWord};
ghost use Rattle.target_machine.specs.Lines.{clock_set, delayed_target, line_shifted, pins_set};
ghost use Rattle.target_machine.specs.Lists.{after};
ghost use Rattle.target_machine.specs.Plain.{Action, action_attempt, in_order};
ghost use Rattle.target_machine.specs.Ranges.{IsTargetJob};
ghost use Rattle.target_machine.specs.Start.{start};
ghost use Rattle.target_machine.specs.State.{TargetState};
ghost use Rattle.target_machine.specs.declared.access.RegAccess.{RegAccess};
ghost use Rattle.target_machine.specs.declared.job.TargetJob.{TargetJob};

/// The target at the start of a job is in range.
pub fn start_is_in_range()
    ensures { (job : TargetJob) → IsTargetJob job → IsJobInRange job → IsInRange (start job) }
{}

/// An access of a value of 32 bits gives a value of 32 bits, and leaves the target in range. So does an action, and so do actions in order or
/// one after the other.
pub fn actions_stay_in_range()
    ensures access { (t : TargetState) (a : RegAccess) → IsInRange t → IsWord a.value → IsAttemptInRange (attempt t a) }
    ensures one { (t : TargetState) (action : Action) → IsInRange t → IsActionInRange action → IsAttemptInRange (action_attempt t action) }
    ensures in_order { (t : TargetState) (actions : List Action) → IsInRange t → AllByRecursion IsActionInRange actions → IsAttemptInRange (in_order t actions) }
    ensures after { (t : TargetState) (actions : List Action) → IsInRange t → AllByRecursion IsActionInRange actions → IsInRange (after t actions) }
{}

/// The calls on the lines leave the target in range.
pub fn lines_stay_in_range()
    ensures pins { (t : TargetState) (output select : ℕ) → IsInRange t → IsInRange (pins_set t output select) }
    ensures line { (t : TargetState) (count bits : ℕ) → IsInRange t → count ≤ 64 → IsInRange (line_shifted t count bits) }
    ensures clock { (t : TargetState) (hertz : ℕ) → IsInRange t → IsWord hertz → IsInRange (clock_set t hertz) }
    ensures delay { (t : TargetState) (micros : ℕ) → IsInRange t → IsInRange (delayed_target t micros) }
{}
