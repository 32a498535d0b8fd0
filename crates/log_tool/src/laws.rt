//! Laws of calls, as the contracts of functions that do nothing.
ghost use Rattle.std.specs.Prelude.{◌≡◌, ℕ, List};
ghost use Rattle.access_calls.specs.Opening.{opened_bench};
ghost use Rattle.probe_core.specs.Bench.{fresh};
ghost use Rattle.probe_core.specs.Probe.{target_of};
ghost use Rattle.probe_core.specs.declared.job.BenchJob.{BenchJob};
ghost use Rattle.probe_core.specs.declared.job.Config.{Config};
ghost use Rattle.target_machine.specs.Start.{start};
ghost use Rattle.log_tool.specs.Asked.{AsksForLog};
ghost use Rattle.log_tool.specs.declared.asking.LogAnswer.{LogAnswer};

/// Words and bytes ask for one answer at most.
pub fn one_answer()
    ensures { (words : List (List ℕ)) (bytes : List ℕ) (a b : LogAnswer) → AsksForLog words bytes a → AsksForLog words bytes b → a ≡ b }
{}

/// A logged run begins on the target on which a run of `dapseq` begins, whatever the settings of its probe.
pub fn begins_as_a_run()
    ensures { (config : Config) (job : BenchJob) → target_of (opened_bench config (fresh job)).probe ≡ start job.target }
{}
