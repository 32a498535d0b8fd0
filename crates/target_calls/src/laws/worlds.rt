//! Worlds in which only so many calls are answered, beside those that answer all.
ghost use Rattle.std.specs.Prelude.{◌≡◌, ℕ, suc, ◌<◌, List, length, take, Some, None};
ghost use Rattle.target_calls.specs.World.{AtLeast, World, fewer, results, results_within, skips, stop, unlimited_world, world_after};
ghost use Rattle.target_calls.specs.declared.calls.Ask.{Ask};

/// Calls come to the same where enough of them are answered as where all are; else their results are the first of those.
pub fn limits_of_answers()
    ensures results { (w : World) (calls : List Ask) → results w calls ≡ results_within w.answered (results (unlimited_world w) calls) }
    ensures front { (w : World) (calls : List Ask) (n : ℕ) → AtLeast n w.answered → take n (results w calls) ≡ take n (results (unlimited_world w) calls) }
    ensures answered { (w : World) (calls : List Ask) → stop w calls ≡ None → AtLeast (length calls) w.answered }
    ensures unlimited { (w : World) (calls : List Ask) → stop w calls ≡ None → stop (unlimited_world w) calls ≡ None }
    ensures whole { (w : World) (calls : List Ask) → stop (unlimited_world w) calls ≡ None → AtLeast (length calls) w.answered → stop w calls ≡ None }
    ensures after { (w : World) (calls : List Ask) → stop w calls ≡ None
        → world_after w calls ≡ record (world_after (unlimited_world w) calls) { answered = fewer w.answered (length calls) } }
    ensures skips { (w : World) (calls : List Ask) → stop w calls ≡ None → skips w calls ≡ skips (unlimited_world w) calls }
{}

/// Calls stop at the first one that faults, where those before it are answered, and else at the first one that is not answered.
pub fn unanswered_calls()
    ensures fault { (w : World) (calls : List Ask) (n : ℕ) → stop (unlimited_world w) calls ≡ Some (suc n) → AtLeast n w.answered → stop w calls ≡ Some (suc n) }
    ensures limit { (w : World) (calls : List Ask) (n : ℕ) → w.answered ≡ Some n → n < length calls → stop (unlimited_world w) (take n calls) ≡ None
        → stop w calls ≡ Some (suc n) }
{}
