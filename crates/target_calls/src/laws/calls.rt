//! Calls in a row.
ghost use Rattle.std.specs.Prelude.{◌≡◌, ℕ, suc, ◌+◌, ◌<◌, ◌≤◌, true, false, List, [], ◌∷◌, ◌++◌, length, take, slice_index, Some, None};
ghost use Rattle.target_calls.specs.Values.{IsAsked, number_of};
ghost use Rattle.target_calls.specs.World.{World, done_now, end_result, is_small_end, later_by, left_at, next_world, one_if_skipped, results, skips};
ghost use Rattle.target_calls.specs.World.{small_now, stop, stops_here, world_after};
ghost use Rattle.target_calls.specs.declared.calls.Ask.{Ask};
ghost use Rattle.target_calls.specs.declared.calls.Value.{Value};

/// After calls at none of which they stop, more calls come to what they come to in the world after those.
pub fn calls_join()
    ensures results { (w : World) (calls more : List Ask) → stop w calls ≡ None → results w (calls ++ more) ≡ results w calls ++ results (world_after w calls) more }
    ensures after { (w : World) (calls more : List Ask) → stop w calls ≡ None → world_after w (calls ++ more) ≡ world_after (world_after w calls) more }
    ensures stop { (w : World) (calls more : List Ask) → stop w calls ≡ None → stop w (calls ++ more) ≡ later_by (length calls) (stop (world_after w calls) more) }
    ensures skips { (w : World) (calls more : List Ask) → stop w calls ≡ None → skips w (calls ++ more) ≡ skips w calls + skips (world_after w calls) more }
{}

/// One call more, after calls at none of which they stop.
pub fn one_call_more()
    ensures stops { (w : World) (calls : List Ask) (ask : Ask) → stop w calls ≡ None → stops_here (world_after w calls) ask ≡ true
        → stop w (calls ++ ask ∷ []) ≡ Some (suc (length calls)) }
    ensures left { (w : World) (calls : List Ask) (ask : Ask) → stop w calls ≡ None → stops_here (world_after w calls) ask ≡ true
        → world_after w (calls ++ ask ∷ []) ≡ left_at (world_after w calls) ask }
    ensures goes { (w : World) (calls : List Ask) (ask : Ask) → stop w calls ≡ None → stops_here (world_after w calls) ask ≡ false → stop w (calls ++ ask ∷ []) ≡ None }
    ensures after { (w : World) (calls : List Ask) (ask : Ask) → stop w calls ≡ None → stops_here (world_after w calls) ask ≡ false
        → world_after w (calls ++ ask ∷ []) ≡ next_world (world_after w calls) ask }
    ensures results { (w : World) (calls : List Ask) (ask : Ask) → stop w calls ≡ None → stops_here (world_after w calls) ask ≡ false
        → results w (calls ++ ask ∷ []) ≡ results w calls ++ end_result (done_now (world_after w calls) ask).end ∷ [] }
    ensures last { (w : World) (calls : List Ask) (ask : Ask) → stop w calls ≡ None → stops_here (world_after w calls) ask ≡ false
        → slice_index (results w (calls ++ ask ∷ [])) (length calls) ≡ end_result (done_now (world_after w calls) ask).end }
    ensures skips { (w : World) (calls : List Ask) (ask : Ask) → stop w calls ≡ None → stops_here (world_after w calls) ask ≡ false
        → skips w (calls ++ ask ∷ []) ≡ skips w calls + one_if_skipped (done_now (world_after w calls) ask).end }
    ensures small { (w : World) (calls : List Ask) (ask : Ask) → stop w calls ≡ None → small_now w calls ask ≡ is_small_end (done_now (world_after w calls) ask).end }
{}

/// What is asked after calls that stop changes nothing.
pub fn stopped_calls()
    ensures stop { (w : World) (calls more : List Ask) (n : ℕ) → stop w calls ≡ Some n → stop w (calls ++ more) ≡ Some n }
    ensures results { (w : World) (calls more : List Ask) (n : ℕ) → stop w calls ≡ Some n → results w (calls ++ more) ≡ results w calls }
    ensures after { (w : World) (calls more : List Ask) (n : ℕ) → stop w calls ≡ Some n → world_after w (calls ++ more) ≡ world_after w calls }
    ensures skips { (w : World) (calls more : List Ask) (n : ℕ) → stop w calls ≡ Some n → skips w (calls ++ more) ≡ skips w calls }
{}

/// The first calls of a list come to the same with more calls after them.
pub fn first_calls()
    ensures whole { (w : World) (calls more : List Ask) → stop w (calls ++ more) ≡ None → stop w calls ≡ None }
    ensures before { (w : World) (calls : List Ask) (n : ℕ) → stop w calls ≡ Some (suc n) → stop w (take n calls) ≡ None }
    ensures results { (w : World) (calls : List Ask) (n : ℕ) → results w (take n calls) ≡ take n (results w calls) }
    ensures kept { (w : World) (calls more : List Ask) (i : ℕ) → i < length (results w calls)
        → slice_index (results w (calls ++ more)) i ≡ slice_index (results w calls) i }
    ensures value { (w : World) (calls more : List Ask) (v : Value) → IsAsked (length (results w calls)) v → number_of w (calls ++ more) v ≡ number_of w calls v }
{}

/// Each call before the one at which they stop has a result, and that call is one of the list.
pub fn count_of_results()
    ensures whole { (w : World) (calls : List Ask) → stop w calls ≡ None → length (results w calls) ≡ length calls }
    ensures stopped { (w : World) (calls : List Ask) (n : ℕ) → stop w calls ≡ Some n → length (results w calls) + 1 ≡ n }
    ensures within { (w : World) (calls : List Ask) (n : ℕ) → stop w calls ≡ Some n → n ≤ length calls }
{}
