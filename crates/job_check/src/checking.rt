//! From the bytes of a job to a valid set of sequences.
ghost use Rattle.std.specs.Prelude.{◌≡◌, ℕ, List, Result, Option, IfOk, IfErr, map, option_map};
ghost use Rattle.std.specs.List.{IsDistinct};
ghost use Rattle.std.specs.Str.{bytes_eq};
ghost use Rattle.device_tree.specs.declared.pack.Pack.{Pack};
ghost use Rattle.sequence_resolve.specs.Resolving.{IsEffectiveSet};
ghost use Rattle.sequence_resolve.specs.declared.entry.SeqSet.{SeqSet};
ghost use Rattle.seq_check.specs.Valid.{IsValid};
ghost use Rattle.job_text.specs.Answers.{Describes};
ghost use Rattle.job_text.specs.Ranges.{AreEntryTexts, AreSettings, AreWatched};
ghost use Rattle.probe_core.specs.Ranges.{IsBenchJob};
ghost use Rattle.job_check.specs.declared.answer.Refusal.{Refusal};
ghost use Rattle.job_check.specs.Answers.{AnswersAs, AreTreesOf, IsAnswerOf, IsCheckAnswer, NoJob, NoSet, NoValid, OnAnswer, OnRefusal};

use crate::answer::{CheckRefusal, Refusal, ValidSet};
use crate::values::{put_values, read_conf};
use dap_base::NameText;
use device_tree::Pack;
use job_text::{Job, JobRefusal, job_of};
use seq_check::{CheckFault, check};
use sequence_resolve::{ResolveFault, Selection, SeqSet, effective};
use std::alloc::Global;

/// The job of these bytes. Else `BadJson` exactly where they are no JSON text; `Job` exactly where the value is
/// no job, with its first fault. `OutOfMemory` where memory is refused. The limit on the number of bytes is the
/// caller's.
pub fn read_job(alloc: Global, bytes: &[u8]) -> Result<Job, CheckRefusal>
    // The job is one that the bytes describe.
    ensures found { IfOk result (Describes bytes.now) }
    // Which refusal it is.
    ensures refused { IfErr result (OnRefusal (NoJob bytes.now)) }
    // Each text of a trace is that of an entry.
    ensures trace { IfOk result (λ job. AreEntryTexts job.trace) }
    // The settings, the bench and the watched words are in their ranges; the bench can be loaded.
    ensures settings { IfOk result (λ job. AreSettings job.settings) }
    ensures watch { IfOk result (λ job. AreWatched job.bench.target.memory job.watch) }
    ensures ranges { IfOk result (λ job. IsBenchJob job.bench) }
{
    match job_of(alloc, bytes) {
        Ok(job) => Ok(job),
        Err(JobRefusal::BadJson) => Err(CheckRefusal::Refused(Refusal::BadJson)),
        Err(JobRefusal::Fault(fault)) => Err(CheckRefusal::Refused(Refusal::Job(fault))),
        Err(JobRefusal::OutOfMemory) => Err(CheckRefusal::OutOfMemory),
    }
}

fn text_of(name: &Option<NameText>) -> Option<&str>
    ensures { option_map (λ text. text.now) result ≡ name.now }
{
    match name {
        Some(name) => Some(name.as_str()),
        None => None,
    }
}

pub(crate) fn resolve_set(
    alloc: Global,
    pack: &Pack,
    selection: &Selection,
) -> Result<SeqSet, CheckRefusal>
    ensures set { IfOk result (IsEffectiveSet pack.now selection.now.device selection.now.variant selection.now.pname) }
    ensures refused { IfErr result (OnRefusal (NoSet pack.now selection.now)) }
    ensures distinct { IfOk result (λ set. IsDistinct bytes_eq (map (λ e. e.name) set.entries)) }
{
    let device = selection.device.as_str();
    let variant = text_of(&selection.variant);
    let pname = text_of(&selection.pname);
    match effective(alloc, pack, device, variant, pname) {
        Ok(set) => Ok(set),
        Err(ResolveFault::NoDevice) => Err(CheckRefusal::Refused(Refusal::NoDevice)),
        Err(ResolveFault::AmbiguousDevice) => Err(CheckRefusal::Refused(Refusal::AmbiguousDevice)),
        Err(ResolveFault::NoVariant) => Err(CheckRefusal::Refused(Refusal::NoVariant)),
        Err(ResolveFault::OutOfMemory) => Err(CheckRefusal::OutOfMemory),
    }
}

pub(crate) fn check_set(alloc: Global, set: SeqSet) -> Result<ValidSet, CheckRefusal>
    requires { IsDistinct bytes_eq (map (λ e. e.name) set.entries) }
    ensures same { IfOk result (λ valid. valid.set ≡ set) }
    ensures trees { IfOk result (λ valid. AreTreesOf valid.set valid.trees) }
    ensures refused { IfErr result (OnRefusal (NoValid set)) }
{
    match check(alloc, &set) {
        Ok(trees) => Ok(ValidSet { set, trees }),
        Err(CheckFault::Fault(kind, spot)) => Err(CheckRefusal::Refused(Refusal::Check(
            kind, spot,
        ))),
        Err(CheckFault::OutOfMemory) => Err(CheckRefusal::OutOfMemory),
    }
}

fn find_valid_set_of(
    alloc: Global,
    job: &Job,
    selection: &Selection,
) -> Result<ValidSet, CheckRefusal>
    ensures answer { OnAnswer (IsAnswerOf job.now selection.now) result }
    ensures trees { IfOk result (λ valid. AreTreesOf valid.set valid.trees) }
{
    let conf = read_conf(alloc, &job.dbgconf)?;
    let plain = resolve_set(alloc, &job.pack, selection)?;
    let set = put_values(alloc, &job.dbgconf, &conf, plain)?;
    check_set(alloc, set)
}

/// The set of sequences that a job has for the selected device, where it is valid, and the trees of its texts. The set has the starting
/// values of the job in its debug variables.
///
/// Else the first refusal of these:
/// - `Dbgconf` exactly where the starting values can not be read, with their first fault;
/// - `NoDevice`, `AmbiguousDevice` and `NoVariant` exactly where no device, two or more devices, and no variant of the one device have the
///   names;
/// - `Dbgconf` with `UndefinedName` exactly where the debug variables are code that does not declare each name of the starting values;
/// - `Check` exactly where the set with the values is not valid, with its first fault.
///
/// `OutOfMemory` where memory is refused.
pub fn valid_set_of(
    alloc: Global,
    job: &Job,
    selection: &Selection,
) -> Result<ValidSet, CheckRefusal>
    // What is answered is the answer to the job and the selection.
    ensures answer { OnAnswer (IsAnswerOf job.now selection.now) result }
    // Their answer is what is answered, unless memory is refused.
    ensures only { (answer : Result SeqSet Refusal) → IsAnswerOf job.now selection.now answer → AnswersAs answer result }
    // The trees are those that the grammar gives the texts of the set.
    ensures trees { IfOk result (λ valid. AreTreesOf valid.set valid.trees) }
{
    find_valid_set_of(alloc, job, selection)
}

fn find_valid_set(
    alloc: Global,
    bytes: &[u8],
    selection: &Selection,
) -> Result<ValidSet, CheckRefusal>
    ensures answer { OnAnswer (IsCheckAnswer bytes.now selection.now) result }
    ensures trees { IfOk result (λ valid. AreTreesOf valid.set valid.trees) }
{
    let job = read_job(alloc, bytes)?;
    find_valid_set_of(alloc, &job, selection)
}

/// The set of sequences that the job of these bytes has for the selected device, where it is valid, and the trees of its texts. The set has
/// the starting values of the job in its debug variables.
///
/// Else the first refusal of these: `BadJson` exactly where the bytes are no JSON text, and `Job` exactly where the value is no job, with
/// its first fault. Then come those of `valid_set_of`. `OutOfMemory` where memory is refused. The limit on the number of bytes is the
/// caller's.
pub fn valid_set(
    alloc: Global,
    bytes: &[u8],
    selection: &Selection,
) -> Result<ValidSet, CheckRefusal>
    // What is answered is the answer to the bytes and the selection.
    ensures answer { OnAnswer (IsCheckAnswer bytes.now selection.now) result }
    // Their answer is what is answered, unless memory is refused.
    ensures only { (answer : Result SeqSet Refusal) → IsCheckAnswer bytes.now selection.now answer → AnswersAs answer result }
    // The trees are those that the grammar gives the texts of the set.
    ensures trees { IfOk result (λ valid. AreTreesOf valid.set valid.trees) }
{
    find_valid_set(alloc, bytes, selection)
}
