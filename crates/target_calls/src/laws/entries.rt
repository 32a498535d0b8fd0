//! Entries of a journal.
ghost use Rattle.std.specs.Prelude.{◌≡◌, ℕ, suc, ◌+◌, ◌*◌, ◌<◌, ◌≤◌, true, List, ◌∷◌, ◌++◌, length, take, Some, None};
ghost use Rattle.target_calls.specs.Journal.{Entry, Passes, attempted_in, first_fault, is_unforgiven, skipped_in, target_after};
ghost use Rattle.target_calls.specs.Weights.{AreWeighty, IsWeighty, commands_in, entries_performed, registers_in, weight, weight_in};
ghost use Rattle.target_calls.specs.World.{later_by};
ghost use Rattle.target_machine.specs.Packets.{delay_commands};
ghost use Rattle.target_machine.specs.Plain.{Action};
ghost use Rattle.target_machine.specs.State.{TargetState};

/// Two lists of entries, one after the other.
pub fn entries_join()
    ensures target { (t : TargetState) (xs ys : List Entry) → target_after t (xs ++ ys) ≡ target_after (target_after t xs) ys }
    ensures weight { (t : TargetState) (xs ys : List Entry) → weight_in t (xs ++ ys) ≡ weight_in t xs + weight_in (target_after t xs) ys }
    ensures attempted { (xs ys : List Entry) → attempted_in (xs ++ ys) ≡ attempted_in xs + attempted_in ys }
    ensures skipped { (xs ys : List Entry) → skipped_in (xs ++ ys) ≡ skipped_in xs + skipped_in ys }
    ensures commands { (xs ys : List Entry) → commands_in (xs ++ ys) ≡ commands_in xs + commands_in ys }
    ensures registers { (xs ys : List Entry) → registers_in (xs ++ ys) ≡ registers_in xs + registers_in ys }
    ensures both { (t : TargetState) (xs ys : List Entry) → Passes t xs → Passes (target_after t xs) ys → Passes t (xs ++ ys) }
    ensures front { (t : TargetState) (xs ys : List Entry) → Passes t (xs ++ ys) → Passes t xs }
    ensures rest { (t : TargetState) (xs ys : List Entry) → Passes t (xs ++ ys) → Passes (target_after t xs) ys }
{}

/// Entries pass exactly where none of them is the first fault that is not forgiven.
pub fn passing_entries()
    ensures none { (t : TargetState) (entries : List Entry) → Passes t entries → first_fault t entries ≡ None }
    ensures all { (t : TargetState) (entries : List Entry) → first_fault t entries ≡ None → Passes t entries }
    ensures first { (t : TargetState) (xs : List Entry) (e : Entry) (ys : List Entry) → Passes t xs → is_unforgiven (target_after t xs) e ≡ true
        → first_fault t (xs ++ e ∷ ys) ≡ Some (suc (length xs)) }
    ensures before { (t : TargetState) (entries : List Entry) (n : ℕ) → first_fault t entries ≡ Some (suc n) → Passes t (take n entries) }
    ensures later { (t : TargetState) (xs ys : List Entry) → Passes t xs → first_fault t (xs ++ ys) ≡ later_by (length xs) (first_fault (target_after t xs) ys) }
{}

/// The entries that were performed are the most from the front that weigh no more than the work.
pub fn performed_entries()
    ensures within { (t : TargetState) (entries : List Entry) (work : ℕ) → entries_performed t entries work ≤ length entries }
    ensures fits { (t : TargetState) (entries : List Entry) (work : ℕ) → weight_in t (take (entries_performed t entries work) entries) ≤ work }
    ensures most { (t : TargetState) (entries : List Entry) (work n : ℕ) → n ≤ length entries → weight_in t (take n entries) ≤ work
        → n ≤ entries_performed t entries work }
    ensures weighs { (t : TargetState) (action : Action) → IsWeighty action → 0 < weight t action }
    ensures front { (t : TargetState) (xs ys : List Entry) → AreWeighty ys → entries_performed t (xs ++ ys) (weight_in t xs) ≡ length xs }
    ensures part { (t : TargetState) (xs : List Entry) (e : Entry) (ys : List Entry) (more : ℕ) → more < weight (target_after t xs) e.action
        → entries_performed t (xs ++ e ∷ ys) (weight_in t xs + more) ≡ length xs }
{}

/// A delay takes the fewest commands of at most 65,535 microseconds, and at least one.
pub fn commands_of_a_delay()
    ensures some { (micros : ℕ) → 0 < delay_commands micros }
    ensures enough { (micros : ℕ) → micros ≤ 65535 * delay_commands micros }
    ensures few { (micros n : ℕ) → 0 < n → micros ≤ 65535 * n → delay_commands micros ≤ n }
{}
