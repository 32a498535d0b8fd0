//! The mark of a `finish`.
ghost use Rattle.std.specs.Prelude.{◌≡◌, true, List, [], ◌∷◌, ◌++◌, length};
ghost use Rattle.target_calls.specs.Asks.{is_settled, settled_last};
ghost use Rattle.target_calls.specs.Values.{number_of};
ghost use Rattle.target_calls.specs.World.{World, results, skips, stop, world_after};
ghost use Rattle.target_calls.specs.declared.calls.Ask.{Ask};
ghost use Rattle.target_calls.specs.declared.calls.Value.{Value};

/// What calls come to does not depend on the mark.
pub fn marks_change_nothing()
    ensures results { (w : World) (calls : List Ask) → results w (settled_last calls) ≡ results w calls }
    ensures after { (w : World) (calls : List Ask) → world_after w (settled_last calls) ≡ world_after w calls }
    ensures stop { (w : World) (calls : List Ask) → stop w (settled_last calls) ≡ stop w calls }
    ensures skips { (w : World) (calls : List Ask) → skips w (settled_last calls) ≡ skips w calls }
    ensures value { (w : World) (calls : List Ask) (v : Value) → number_of w (settled_last calls) v ≡ number_of w calls v }
    ensures count { (calls : List Ask) → length (settled_last calls) ≡ length calls }
{}

/// The last call is marked, and it alone.
pub fn last_mark()
    ensures marked { (calls : List Ask) → is_settled (settled_last calls) ≡ true }
    ensures same { (calls : List Ask) → is_settled calls ≡ true → settled_last calls ≡ calls }
    ensures last { (calls : List Ask) (ask : Ask) → is_settled (calls ++ ask ∷ []) ≡ ask.settled }
    ensures others { (calls : List Ask) (ask : Ask) → settled_last (calls ++ ask ∷ []) ≡ calls ++ record ask { settled = true } ∷ [] }
{}
