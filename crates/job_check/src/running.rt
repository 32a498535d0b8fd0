//! From the bytes of a job to a sequence that can run.
ghost use Rattle.std.specs.Prelude.{◌≡◌, Option, IfOk, IfErr};
ghost use Rattle.job_text.specs.Ranges.{AreSettings, AreWatched};
ghost use Rattle.probe_core.specs.Ranges.{IsBenchJob};
ghost use Rattle.job_check.specs.Running.{IsRefusedRun, IsRefusedRunFor, IsRefusedRunOf, IsRunFor, IsRunOfJob, IsValidRun, OnEnd, has_sequence, run_refusal_of};

use crate::answer::{CheckRefusal, Refusal, ValidSet};
use crate::checking::{check_set, read_job, resolve_set};
use crate::own::{JobImage, Own, read_own};
use crate::values::{put_values, read_conf};
use job_text::Job;
use seq_check::Checked;
use sequence_resolve::{Selection, SeqSet};
use std::alloc::Global;

/// A job whose sequence can run: the valid set of sequences of one device, and its trees.
#[derive(Debug, Drop)]
pub struct ValidRun {
    pub job: Job,
    /// The image of the job, where the mode needs one.
    pub image: Option<JobImage>,
    /// The sequences that apply to the device.
    pub set: SeqSet,
    /// The trees that the grammar gives the texts of this set.
    pub trees: Checked,
}

/// Why no sequence of a job runs.
#[derive(Debug, Drop)]
pub enum RunRefusal {
    /// The job is refused, or its set of sequences.
    Refused(Refusal),
    /// No sequence of the set has the name.
    NoSequence,
    /// Memory was refused.
    OutOfMemory,
}

// Why no sequence runs, by why there is no valid set.
fn refuse_run(refusal: CheckRefusal) -> RunRefusal
    ensures { result ≡ run_refusal_of refusal }
{
    match refusal {
        CheckRefusal::Refused(refusal) => RunRefusal::Refused(refusal),
        CheckRefusal::OutOfMemory => RunRefusal::OutOfMemory,
    }
}

// Whether a sequence of the set has the name.
fn has_sequence(set: &SeqSet, name: &str) -> bool
    ensures { result ≡ has_sequence set.now name.now }
{
    set.entries
        .as_slice()
        .iter()
        .any(|entry| entry.name.as_str() == name)
}

// The job with its image, its set and the trees of its texts, where a sequence of the set has the name.
fn run_with(
    alloc: Global,
    job: Job,
    image: Option<JobImage>,
    selection: &Selection,
    name: &str,
) -> Result<ValidRun, RunRefusal>
    ensures found { IfOk result (IsRunOfJob selection.now name.now) }
    ensures same { IfOk result (λ r. r.job ≡ job) }
    ensures image { IfOk result (λ r. r.image ≡ image) }
    ensures refused { IfErr result (OnEnd (IsRefusedRunOf job selection.now name.now)) }
{
    let conf = match read_conf(alloc, &job.dbgconf) {
        Ok(conf) => conf,
        Err(refusal) => return Err(refuse_run(refusal)),
    };
    let plain = match resolve_set(alloc, &job.pack, selection) {
        Ok(plain) => plain,
        Err(refusal) => return Err(refuse_run(refusal)),
    };
    if !has_sequence(&plain, name) {
        return Err(RunRefusal::NoSequence);
    }
    let set = match put_values(alloc, &job.dbgconf, &conf, plain) {
        Ok(set) => set,
        Err(refusal) => return Err(refuse_run(refusal)),
    };
    match check_set(alloc, set) {
        Ok(ValidSet { set, trees }) => Ok(ValidRun {
            job,
            image,
            set,
            trees,
        }),
        Err(refusal) => Err(refuse_run(refusal)),
    }
}

/// The job with what the mode needs of it, with its set for the selected device and with the trees of its texts. The set has the starting
/// values of the job in its debug variables, a sequence of the name, and is valid.
///
/// Else the first of these:
/// - where the mode needs an image, `Job` with `Missing` at `image` exactly where the job has none, and `Image` exactly where its text is
///   none, with its first fault;
/// - the refusals of `valid_set_of` up to `NoVariant`;
/// - `NoSequence` exactly where no sequence of the set has the name;
/// - `Dbgconf` with `UndefinedName`, and `Check`, as in `valid_set_of`.
///
/// `OutOfMemory` where memory is refused.
pub fn valid_run_of(
    alloc: Global,
    job: Job,
    own: Own,
    selection: &Selection,
    name: &str,
) -> Result<ValidRun, RunRefusal>
    // What is answered can run, with what the mode needs.
    ensures found { IfOk result (IsRunFor own selection.now name.now) }
    // It is the job.
    ensures same { IfOk result (λ r. r.job ≡ job) }
    // Which refusal it is.
    ensures refused { IfErr result (OnEnd (IsRefusedRunFor job own selection.now name.now)) }
{
    match read_own(alloc, own, &job.image) {
        Ok(image) => run_with(alloc, job, image, selection, name),
        Err(refusal) => Err(refuse_run(refusal)),
    }
}

/// The job of these bytes with what the mode needs of it, its set and the trees of its texts, as `valid_run_of`
/// answers them.
///
/// Else the first of these: `BadJson` and `Job`, as in `valid_set`; and then the refusals of `valid_run_of`.
/// `OutOfMemory` where memory is refused. The limit on the number of bytes is the caller's.
pub fn valid_run(
    alloc: Global,
    bytes: &[u8],
    own: Own,
    selection: &Selection,
    name: &str,
) -> Result<ValidRun, RunRefusal>
    // What is answered can run, with what the mode needs.
    ensures found { IfOk result (IsValidRun bytes.now own selection.now name.now) }
    // Which refusal it is.
    ensures refused { IfErr result (OnEnd (IsRefusedRun bytes.now own selection.now name.now)) }
    // The settings, the bench and the watched words are in their ranges; the bench can be loaded.
    ensures settings { IfOk result (λ r. AreSettings r.job.settings) }
    ensures watch { IfOk result (λ r. AreWatched r.job.bench.target.memory r.job.watch) }
    ensures ranges { IfOk result (λ r. IsBenchJob r.job.bench) }
{
    let job = match read_job(alloc, bytes) {
        Ok(job) => job,
        Err(refusal) => return Err(refuse_run(refusal)),
    };
    valid_run_of(alloc, job, own, selection, name)
}
