//! The whole job.
ghost use Rattle.std.specs.Prelude.{◌≡◌, IfOk, IfErr};
ghost use Rattle.serde_json.specs.View.{view};
ghost use Rattle.json_form.specs.Faults.{Gives};
ghost use Rattle.json_form.specs.Reading.{only_keys};
ghost use Rattle.target_machine.specs.InRange.{IsJobInRange};
ghost use Rattle.probe_core.specs.Ranges.{IsBenchJob};
ghost use Rattle.job_text.specs.Keys.{job_keys};
ghost use Rattle.job_text.specs.JobReading.{dbgconf_in, job_in, optional_in, watch_in};
ghost use Rattle.job_text.specs.Answers.{AnswersJob, Describes, IsRefused, IsAnswer};
ghost use Rattle.job_text.specs.JobForm.{members_of};
ghost use Rattle.job_text.specs.Ranges.{AreSettings, AreWatched, AreEntryTexts};
ghost use Rattle.job_text.specs.declared.job.Job.{Job};

use crate::bench::BenchReader;
use crate::image::image_of;
use crate::job::{ImageJob, Job, JobRefusal, Watch};
use crate::run::settings_of;
use crate::trace::trace_of;
use crate::watch::WatchReader;
use dap_base::{ItemList, NameText};
use device_tree::{JobFault, Pack, PackReader};
use json_form::{Each, ListOf, Text, member_or, only_keys_of, optional_of, required_of};
use probe_core::BenchJob;
use serde_json::Value;
use std::alloc::Global;
use target_machine::{RegionJobs, Settings};
use trace_audit::TraceTexts;

const WATCH_LIMIT: usize = 1024;

#[tactic(auto, unfolding(crate::specs::JobReading::watch_in))]
fn watch_of(alloc: Global, job: &Value, regions: &RegionJobs) -> Result<Watch, JobFault>
    ensures { Gives result (watch_in regions.now (view job.now)) }
{
    let list = ListOf {
        limit: Some(WATCH_LIMIT),
        item: Each {
            item: WatchReader {
                regions: regions.as_slice(),
            },
        },
    };
    member_or(alloc, job, "watch", &list, ItemList::new(alloc))
}

#[tactic(auto, unfolding(crate::specs::JobReading::dbgconf_in))]
fn dbgconf_of(alloc: Global, job: &Value) -> Result<Option<NameText>, JobFault>
    ensures { Gives result (dbgconf_in (view job.now)) }
{
    optional_of(alloc, job, "dbgconf", &Text)
}

// The members of a job that may be absent, apart from `run`.
#[derive(Drop)]
struct Optional {
    watch: Watch,
    image: Option<ImageJob>,
    dbgconf: Option<NameText>,
    trace: Option<TraceTexts>,
}

#[tactic(auto, unfolding(crate::specs::JobReading::optional_in))]
fn optional_in_value(alloc: Global, job: &Value, regions: &RegionJobs) -> Result<Optional, JobFault>
    ensures { Gives result (optional_in regions.now (view job.now)) }
{
    let watch = watch_of(alloc, job, regions)?;
    let image = image_of(alloc, job)?;
    let dbgconf = dbgconf_of(alloc, job)?;
    let trace = trace_of(alloc, job)?;
    Ok(Optional {
        watch,
        image,
        dbgconf,
        trace,
    })
}

const JOB_KEYS: [&str; 7] = ["pack", "run", "bench", "watch", "image", "dbgconf", "trace"];

// That the value has no other keys than a job may have.
fn only_job_keys(alloc: Global, job: &Value) -> Result<(), JobFault>
    ensures { Gives result (only_keys job_keys (view job.now)) }
{
    only_keys_of(alloc, job, &JOB_KEYS)
}

// The members of a job, before its type says that their numbers fit.
#[derive(Drop)]
struct JobParts {
    pack: Pack,
    settings: Settings,
    bench: BenchJob,
    watch: Watch,
    image: Option<ImageJob>,
    dbgconf: Option<NameText>,
    trace: Option<TraceTexts>,
}

#[tactic(auto, unfolding(crate::specs::JobReading::job_in))]
fn job_in_value(alloc: Global, value: &Value) -> Result<JobParts, JobFault>
    ensures { Gives result (job_in (view value.now)) }
{
    only_job_keys(alloc, value)?;
    let pack = required_of(alloc, value, "pack", &PackReader)?;
    let settings = settings_of(alloc, value)?;
    let bench = required_of(alloc, value, "bench", &BenchReader)?;
    let own = optional_in_value(alloc, value, &bench.target.memory)?;
    Ok(JobParts {
        pack,
        settings,
        bench,
        watch: own.watch,
        image: own.image,
        dbgconf: own.dbgconf,
        trace: own.trace,
    })
}

// The job with these members, whose numbers fit their registers and words.
fn job_with(parts: JobParts) -> Job
    requires { IsJobInRange parts.bench.target }
    ensures { members_of result ≡ parts }
{
    Job {
        pack: parts.pack,
        settings: parts.settings,
        bench: parts.bench,
        watch: parts.watch,
        image: parts.image,
        dbgconf: parts.dbgconf,
        trace: parts.trace,
    }
}

fn answer_of(alloc: Global, bytes: &[u8]) -> Result<Job, JobRefusal>
    ensures { AnswersJob bytes.now result }
{
    let value = match Value::from_slice(alloc, bytes) {
        Ok(value) => value,
        Err(error) => {
            if error.is_memory() {
                return Err(JobRefusal::OutOfMemory);
            }
            return Err(JobRefusal::BadJson);
        }
    };
    match job_in_value(alloc, &value) {
        Ok(parts) => Ok(job_with(parts)),
        Err(JobFault::OutOfMemory) => Err(JobRefusal::OutOfMemory),
        Err(fault) => Err(JobRefusal::Fault(fault)),
    }
}

/// The job that `bytes` describe, or why they describe none. `BadJson` exactly where `serde_json` reads no value from them, at most 127
/// arrays and objects within one another. `Fault` with the first fault of the value, by the rules and the order of docs/JOB.md.
/// `OutOfMemory` where memory is refused. The bytes are read once, in near-linear time. The limit on their number is the caller's.
pub fn job_of(alloc: Global, bytes: &[u8]) -> Result<Job, JobRefusal>
    // The job is one that the bytes describe.
    ensures found { IfOk result (Describes bytes.now) }
    // A job that the bytes describe is read, unless memory is refused.
    ensures only { (job : Job) → Describes bytes.now job → IsAnswer job result }
    // Which refusal it is, and the first fault.
    ensures refused { IfErr result (IsRefused bytes.now) }
    // Each text of a trace is that of an entry.
    ensures trace { IfOk result (λ job. AreEntryTexts job.trace) }
    // The settings, the bench and the watched words are in their ranges; the bench can be loaded.
    ensures settings { IfOk result (λ job. AreSettings job.settings) }
    ensures watch { IfOk result (λ job. AreWatched job.bench.target.memory job.watch) }
    ensures ranges { IfOk result (λ job. IsBenchJob job.bench) }
{
    answer_of(alloc, bytes)
}
