//! A law of runs, as the contract of a function that does nothing.
ghost use Rattle.access_calls.specs.declared.ended.Ending.{Ending};
ghost use Rattle.std.specs.Prelude.{◌≡◌};
ghost use Rattle.job_runs.specs.Meant.{EndsAsMeant, FailedOutside};
ghost use Rattle.job_runs.specs.Runs.{Left, LeavesAs, Run};

/// A run of which neither the bench nor the sink failed, and for which memory was not refused, ends as
/// it is meant to.
pub fn runs_end_as_meant()
    ensures { (ending : Ending) (run : Run) (left : Left) → left.ended.ending ≡ ending → LeavesAs ending run left → (FailedOutside ending → ⊥) → EndsAsMeant run left }
{}
