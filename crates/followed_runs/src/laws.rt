//! Laws of runs with what follows them: each is the contract of a function that does nothing.
ghost use Rattle.followed_runs.specs.Laws.{FollowedRunsAreMade, LimitsCutFollowedRuns};

/// Where at most m units are answered, a run with what follows it is the same if it asks at most m. Else it ends where unit m + 1 is
/// asked; the whole goes on from its calls, and its lines come first.
pub fn limits_cut_followed_runs()
    ensures { LimitsCutFollowedRuns }
{}

/// A run with what follows it is what its calls come to, made one after the other, and it ends where they stop.
pub fn followed_runs_are_made()
    ensures { FollowedRunsAreMade }
{}
