//! What follows from the definitions: each law is the contract of a function that does nothing.
ghost use Rattle.std.specs.Prelude.{◌≡◌, Some};
ghost use Rattle.target_machine.specs.InRange.{IsJobInRange};
ghost use Rattle.probe_core.specs.Bench.{fresh};
ghost use Rattle.probe_core.specs.Ranges.{IsBenchJob};
ghost use Rattle.probe_core.specs.declared.job.BenchJob.{BenchJob};
ghost use Rattle.access_calls.specs.GoesOn.{AccessGoesOn};
ghost use Rattle.access_calls.specs.Left.{IsLeft, answered_by};
ghost use Rattle.access_calls.specs.Opening.{MayBegin};
ghost use Rattle.access_calls.specs.Reported.{AccessView};
ghost use Rattle.access_calls.specs.declared.stop.Stop.{Stop};

/// What each call keeps is kept by no call, and by calls in a row.
#[tactic(auto, using(crate::proofs::KeepLemmas::goes_same, crate::proofs::KeepLemmas::goes_trans))]
pub fn calls_in_a_row_go_on()
    ensures own { (a : AccessView) → AccessGoesOn a a }
    ensures through { (a b c : AccessView) → AccessGoesOn a b → AccessGoesOn b c → AccessGoesOn a c }
{}

/// After an end nothing but what was asked changes: the end stays, and nothing is sent.
#[tactic(auto, using(crate::proofs::KeepLemmas::end_stays, crate::proofs::KeepLemmas::end_is_silent))]
pub fn an_end_stays()
    ensures end { (a b : AccessView) (s : Stop) → AccessGoesOn a b → a.end ≡ Some s → b.end ≡ Some s }
    ensures silent { (a b : AccessView) (s : Stop) → AccessGoesOn a b → a.end ≡ Some s → b ≡ record a { asks = b.asks } }
{}

/// So many calls may be answered as a caller takes it at its end.
#[tactic(auto, using(crate::proofs::KeepLemmas::left_by))]
pub fn a_world_is_left()
    ensures { (a : AccessView) → IsLeft a (answered_by a) }
{}

/// Over a bench as a load leaves it an access may begin.
pub fn a_loaded_job_may_begin()
    ensures { (job : BenchJob) → IsBenchJob job → IsJobInRange job.target → MayBegin (fresh job) }
{}
