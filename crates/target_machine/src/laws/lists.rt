//! Lists of actions.
ghost use Rattle.std.specs.Prelude.{◌≡◌, ℕ, List, [], ◌∷◌, ◌++◌, true, false};
ghost use Rattle.std.specs.FinMap as map;
ghost use Rattle.std.specs.Ordering.{nat_cmp};
ghost use Rattle.target_machine.specs.Laws.{AnswerAlike};
ghost use Rattle.target_machine.specs.Lists.{PassTo, SpareRdbuff, SparesAps, SparesRdbuff, after, with_ports};
ghost use Rattle.target_machine.specs.Plain.{Action, action_attempt, in_order, is_fault, issued_actions};
ghost use Rattle.target_machine.specs.State.{Agree, TargetState};
ghost use Rattle.target_machine.specs.declared.ap.ApState.{ApState};

/// The target after two lists is that after the second from that after the first.
pub fn lists_join()
    ensures after { (t : TargetState) (xs ys : List Action) → after t (xs ++ ys) ≡ after (after t xs) ys }
    ensures pass { (t u v : TargetState) (xs ys : List Action) → PassTo t xs u → PassTo u ys v → PassTo t (xs ++ ys) v }
{}

/// Actions of which none faults: the target after them, and what a further action answers.
pub fn passing_lists()
    ensures after { (t u : TargetState) (xs : List Action) → PassTo t xs u → after t xs ≡ u }
    ensures last { (t u : TargetState) (xs : List Action) (a : Action) → PassTo t xs u → in_order t (xs ++ a ∷ []) ≡ action_attempt u a }
    ensures fault { (t u : TargetState) (xs : List Action) (a : Action) (ys : List Action) → PassTo t xs u → is_fault (action_attempt u a).outcome ≡ true
        → in_order t (xs ++ a ∷ ys) ≡ action_attempt u a }
{}

/// The actions that are issued lead to the target of the actions in order; where none faults they are all.
pub fn what_is_issued()
    ensures after { (t : TargetState) (xs : List Action) → after t (issued_actions t xs) ≡ (in_order t xs).next }
    ensures all { (t : TargetState) (xs : List Action) → is_fault (in_order t xs).outcome ≡ false → issued_actions t xs ≡ xs }
    ensures pass { (t : TargetState) (xs : List Action) → is_fault (in_order t xs).outcome ≡ false → PassTo t xs (in_order t xs).next }
{}

/// Actions that do not ask for RDBUFF do the same on targets that agree, and leave targets that agree.
pub fn lists_on_targets_that_agree()
    ensures one { (t u : TargetState) (a : Action) → Agree t u → SparesRdbuff a → AnswerAlike (action_attempt t a) (action_attempt u a) }
    ensures in_order { (t u : TargetState) (xs : List Action) → Agree t u → SpareRdbuff xs → AnswerAlike (in_order t xs) (in_order u xs) }
    ensures issued { (t u : TargetState) (xs : List Action) → Agree t u → SpareRdbuff xs → issued_actions t xs ≡ issued_actions u xs }
    ensures after { (t u : TargetState) (xs : List Action) → Agree t u → SpareRdbuff xs → Agree (after t xs) (after u xs) }
{}

/// An action that is no access of an AP and does not ask for RDBUFF does the same whatever RDBUFF and the APs are, and
/// leaves both.
pub fn the_dp_acts_beside_the_aps()
    ensures { (t : TargetState) (rdbuff : ℕ) (aps : map.FinMap nat_cmp ApState) (action : Action) → SparesAps action
        → action_attempt (with_ports t rdbuff aps) action ≡ record { outcome = (action_attempt t action).outcome; next = with_ports (action_attempt t action).next rdbuff aps } }
{}
