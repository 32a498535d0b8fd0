//! What a call is asked for.
ghost use Rattle.std.specs.Prelude.{◌≡◌, ⊤, ℕ, List, None, Some, IfOk, OnOk, IfErr, IsErrOf, MatchOption};
ghost use Rattle.text_lines.specs.Causes.{NamesFault};
ghost use Rattle.command_words.specs.declared.answer.Command.TheVariants as commands;
ghost use Rattle.dapseq_tool.specs.Asked.{AsksOfCheck, AsksOfCommand, AsksOfRun, CommandAsksOfBytes, IsReadLine, IsRunCommand, ReadsSource, of_refused, own_for_purpose};
ghost use Rattle.dapseq_tool.specs.Frame.{IsFit, RequestIsAsked};
ghost use Rattle.dapseq_tool.specs.Generated.{its_device, its_sequence, job_text};
ghost use Rattle.job_source.specs.Source.{AreBytesOf, AreTaken};
ghost use Rattle.tool_calls.specs.Calls.{ReadsJob};

use crate::auditing::{Audit, ask_for_audit};
use crate::generating::job_of_number;
use command_words::{Command, WordsError, command_of};
use dap_base::{NameText, OutOfMemory, Source, Words};
use job_check::{CheckRefusal, Own, Refusal, RunRefusal, ValidRun, ValidSet, valid_run, valid_set};
use job_source::{Unread, read_job};
use sequence_resolve::{Selection, SeqSet};
use std::alloc::Global;
use tool_calls::Unasked;
use trace_audit::AuditFault;

/// An answer without a run.
#[derive(Drop)]
pub enum Answer {
    /// The words are no command.
    Usage,
    /// The source has more bytes than a job may have.
    TooLong,
    /// No sequence of the set has the name.
    NoSequence,
    /// The job is refused.
    Refused(Refusal),
    /// A check found this set of sequences valid.
    CheckOk(SeqSet),
    /// An audit accepted the trace of this job.
    Audited(Audit),
    /// The trace of the job is refused, for its first entry that cannot come. Never `OutOfMemory`.
    AuditRefused(AuditFault),
    /// The job has no trace to audit.
    NoTrace,
}

/// A run that is asked for.
#[derive(Drop)]
pub struct Run {
    /// The job, and the valid set of its device.
    pub valid: ValidRun,
    /// The sequence that runs.
    pub sequence: NameText,
    /// What is done besides the run.
    pub purpose: Purpose,
}

/// What is done besides the run of a sequence.
#[derive(Clone, Copy, Debug, PartialEq, Eq)]
pub enum Purpose {
    /// Nothing: it is run.
    Run,
    /// The packets are shown after the report.
    Trace,
    /// The image of the job is written and read back after it.
    Load,
    /// The components of an access port are listed after it.
    Scan {
        /// The number of the access port.
        ap: u8,
    },
}

/// An answer, or a run.
#[derive(Drop)]
pub enum What {
    Answer(Answer),
    Run(Run),
}

/// What a call is asked for.
#[derive(Drop)]
pub struct Requested {
    /// The number of the job that is made, in the mode `gen`.
    pub number: Option<u16>,
    pub what: What,
}

// What is asked for where no sequence runs.
fn ask_no_run(refusal: RunRefusal) -> Result<What, OutOfMemory>
    ensures { IfOk result (λ what. of_refused refusal ≡ Some what) }
{
    match refusal {
        RunRefusal::Refused(refusal) => Ok(What::Answer(Answer::Refused(refusal))),
        RunRefusal::NoSequence => Ok(What::Answer(Answer::NoSequence)),
        RunRefusal::OutOfMemory => Err(OutOfMemory),
    }
}

// What a mode that runs needs of a job besides its sequences.
fn own_of(purpose: Purpose) -> Own
    ensures { result ≡ own_for_purpose purpose }
{
    match purpose {
        Purpose::Load => Own::Image,
        Purpose::Run | Purpose::Trace | Purpose::Scan { .. } => Own::Nothing,
    }
}

// What the bytes of a job ask for in a mode that runs.
fn ask_for_run(
    alloc: Global,
    selection: &Selection,
    sequence: &str,
    purpose: Purpose,
    bytes: &[u8],
) -> Result<What, OutOfMemory>
    ensures asked { IfOk result (AsksOfRun selection.now sequence.now purpose bytes.now) }
    ensures fit { IfOk result (IsFit ⊤) }
{
    match valid_run(alloc, bytes, own_of(purpose), selection, sequence) {
        Ok(valid) => Ok(What::Run(Run {
            valid,
            sequence: NameText::new(alloc, sequence)?,
            purpose,
        })),
        Err(refusal) => ask_no_run(refusal),
    }
}

// What the bytes of a job ask for in the mode `check`.
fn ask_for_check(alloc: Global, selection: &Selection, bytes: &[u8]) -> Result<What, OutOfMemory>
    ensures asked { IfOk result (AsksOfCheck selection.now bytes.now) }
    ensures fit { IfOk result (IsFit ⊥) }
{
    match valid_set(alloc, bytes, selection) {
        Ok(ValidSet { set, .. }) => Ok(What::Answer(Answer::CheckOk(set))),
        Err(CheckRefusal::Refused(refusal)) => Ok(What::Answer(Answer::Refused(refusal))),
        Err(CheckRefusal::OutOfMemory) => Err(OutOfMemory),
    }
}

// What the bytes of a job ask for.
fn ask_by_bytes(alloc: Global, command: &Command, bytes: &[u8]) -> Result<What, OutOfMemory>
    requires { ReadsSource command.now }
    ensures asked { IfOk result (CommandAsksOfBytes command.now bytes.now) }
    ensures fit { IfOk result (IsFit (IsRunCommand command.now)) }
{
    match command {
        Command::Check(selection) => ask_for_check(alloc, selection, bytes),
        Command::Run {
            selection,
            sequence,
        } => ask_for_run(alloc, selection, sequence.as_str(), Purpose::Run, bytes),
        Command::Trace {
            selection,
            sequence,
        } => ask_for_run(alloc, selection, sequence.as_str(), Purpose::Trace, bytes),
        Command::Load {
            selection,
            sequence,
        } => ask_for_run(alloc, selection, sequence.as_str(), Purpose::Load, bytes),
        Command::Scan {
            selection,
            sequence,
            ap,
        } => {
            let purpose = Purpose::Scan { ap: *ap };
            ask_for_run(alloc, selection, sequence.as_str(), purpose, bytes)
        }
        Command::Gen(_) => unreachable!(),
        Command::Audit => ask_for_audit(alloc, bytes),
    }
}

// What the source asks for.
fn ask_by_source<S: Source>(
    alloc: Global,
    command: &Command,
    source: &mut S,
) -> Result<What, Unasked>
    requires { ReadsSource command.now }
    ensures asked { IfOk result (λ what. (bytes : List ℕ) × AreBytesOf (S.left source.old) bytes × AsksOfCommand command.now bytes what) }
    ensures reads { ReadsJob result (S.left source.old) (S.left source.new) (S.faults source.old) (S.faults source.new) }
    ensures fit { IfOk result (IsFit (IsRunCommand command.now)) }
{
    let bytes = match read_job(alloc, source) {
        Ok(bytes) => bytes,
        Err(Unread::TooLong) => return Ok(What::Answer(Answer::TooLong)),
        Err(Unread::Failed) => return Err(Unasked::ReadFault),
        Err(Unread::OutOfMemory) => return Err(Unasked::OutOfMemory),
    };
    match ask_by_bytes(alloc, command, &bytes) {
        Ok(what) => Ok(what),
        Err(OutOfMemory) => Err(Unasked::OutOfMemory),
    }
}

// What the job of a number asks for.
fn ask_by_number(alloc: Global, number: u16) -> Result<What, OutOfMemory>
    ensures asked { IfOk result (AsksOfRun its_device its_sequence Purpose.Run (job_text number)) }
    ensures fit { IfOk result (IsFit ⊤) }
{
    let text = job_of_number(alloc, number)?;
    let selection = Selection {
        device: NameText::new(alloc, "G")?,
        variant: None,
        pname: None,
    };
    ask_for_run(alloc, &selection, "Main", Purpose::Run, text.as_bytes())
}

// The same with the number of the job that is made.
fn ask_with_number(alloc: Global, number: u16) -> Result<Requested, Unasked>
    ensures number { IfOk result (λ asked. asked.number ≡ Some number) }
    ensures asked { IfOk result (λ asked. AsksOfRun its_device its_sequence Purpose.Run (job_text number) asked.what) }
    ensures fit { IfOk result (λ asked. IsFit ⊤ asked.what) }
    ensures memory { IfErr result (λ e. e ≡ Unasked.OutOfMemory) }
{
    match ask_by_number(alloc, number) {
        Ok(what) => Ok(Requested {
            number: Some(number),
            what,
        }),
        Err(OutOfMemory) => Err(Unasked::OutOfMemory),
    }
}

// What the source asks for, where no job is made.
fn ask_by_words<S: Source>(
    alloc: Global,
    command: &Command,
    source: &mut S,
) -> Result<Requested, Unasked>
    requires { ReadsSource command.now }
    ensures number { IfOk result (λ asked. asked.number ≡ None) }
    ensures asked { IfOk result (λ asked. (bytes : List ℕ) × AreBytesOf (S.left source.old) bytes × AsksOfCommand command.now bytes asked.what) }
    ensures reads { ReadsJob result (S.left source.old) (S.left source.new) (S.faults source.old) (S.faults source.new) }
    ensures fit { IfOk result (λ asked. IsFit (IsRunCommand command.now) asked.what) }
{
    match ask_by_source(alloc, command, source) {
        Ok(what) => Ok(Requested { number: None, what }),
        Err(end) => Err(end),
    }
}

// The number of the job that a command makes.
fn number_of(command: &Command) -> Option<u16>
    ensures { MatchOption result (ReadsSource command.now) (λ n. command.now ≡ commands.Gen n) }
{
    match command {
        Command::Gen(number) => Some(*number),
        Command::Check(_) | Command::Run { .. } | Command::Trace { .. } => None,
        Command::Load { .. } | Command::Scan { .. } | Command::Audit => None,
    }
}

/// What the words and the source ask for. Where the words are no command, and in the mode `gen`, the
/// source is not read.
pub fn ask<S: Source>(alloc: Global, words: &Words, source: &mut S) -> Result<Requested, Unasked>
    ensures asked { IfOk result (RequestIsAsked words.now (S.left source.old)) }
    ensures taken { OnOk result (IsReadLine words.now → AreTaken (S.left source.old) (S.left source.new)) }
    ensures unread { (IsReadLine words.now → ⊥) → source.new ≡ source.old }
    ensures fault { IsErrOf result Unasked.ReadFault → IsReadLine words.now }
    ensures source { NamesFault Unasked.ReadFault (S.faults source.old) (S.faults source.new) result }
{
    let command = match command_of(alloc, words) {
        Ok(command) => command,
        Err(WordsError::Usage) => {
            return Ok(Requested {
                number: None,
                what: What::Answer(Answer::Usage),
            });
        }
        Err(WordsError::OutOfMemory) => return Err(Unasked::OutOfMemory),
    };
    match number_of(&command) {
        Some(number) => ask_with_number(alloc, number),
        None => ask_by_words(alloc, &command, source),
    }
}
