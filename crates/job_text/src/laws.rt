//! A law of jobs, as the contract of a function that does nothing.

ghost use Rattle.std.specs.Prelude.{◌≢◌, ◌⊎◌, ℕ, List};
ghost use Rattle.job_text.specs.declared.job.Job.{Job};
ghost use Rattle.job_text.specs.declared.job.JobRefusal.{JobRefusal};
ghost use Rattle.job_text.specs.declared.job.JobRefusal.TheVariants as refusals;
ghost use Rattle.job_text.specs.Answers.{Describes, IsRefused};

/// Bytes describe a job, or they are refused for a cause that is not refused memory.
pub fn some_job_or_refusal()
    ensures { (bytes : List ℕ) → ((job : Job) × Describes bytes job)
        ⊎ ((refusal : JobRefusal) × IsRefused bytes refusal × (refusal ≢ refusals.OutOfMemory)) }
{}
