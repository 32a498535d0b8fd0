//! What a call is asked for.
ghost use Rattle.std.specs.Prelude.{◌≡◌, ℕ, List, Some, IfOk, OnOk, IsErrOf};
ghost use Rattle.text_lines.specs.Causes.{NamesFault};
ghost use Rattle.job_source.specs.Source.{AreBytesOf, AreTaken};
ghost use Rattle.tool_calls.specs.Calls.{ReadsJob};
ghost use Rattle.log_words.specs.Asks as words_asked;
ghost use Rattle.log_tool.specs.Asked.{AsksForLog, AsksOfJobBytes, IsLogLine, answer_of_run_refusal};

use crate::log::{RunLog, log_of};
use dap_base::{OutOfMemory, Source, Words};
use job_check::{Own, Refusal, RunRefusal, valid_run};
use job_source::{Unread, read_job};
use log_words::{LogCommand, WordsError, asked_of};
use std::alloc::Global;
use tool_calls::Unasked;

/// What is answered.
#[derive(Drop)]
pub enum LogAnswer {
    /// The words ask for nothing.
    Usage,
    /// The source has more bytes than a job may have.
    TooLong,
    /// No sequence of the set has the name.
    NoSequence,
    /// The job is refused.
    Refused(Refusal),
    /// The log of the run.
    Log(RunLog),
}

// What is answered where no sequence runs.
fn refused_by(refusal: RunRefusal) -> Result<LogAnswer, OutOfMemory>
    ensures { IfOk result (λ answer. answer_of_run_refusal refusal ≡ Some answer) }
{
    match refusal {
        RunRefusal::Refused(refusal) => Ok(LogAnswer::Refused(refusal)),
        RunRefusal::NoSequence => Ok(LogAnswer::NoSequence),
        RunRefusal::OutOfMemory => Err(OutOfMemory),
    }
}

// What is asked for of the bytes of a job.
fn ask_of_bytes(alloc: Global, asked: &LogCommand, bytes: &[u8]) -> Result<LogAnswer, OutOfMemory>
    ensures { IfOk result (AsksOfJobBytes bytes.now asked.now) }
{
    let sequence = asked.sequence.as_str();
    match valid_run(alloc, bytes, Own::Nothing, &asked.selection, sequence) {
        Ok(valid) => Ok(LogAnswer::Log(log_of(alloc, asked, &valid)?)),
        Err(refusal) => refused_by(refusal),
    }
}

// What the source asks for.
fn ask_of_source<S: Source>(
    alloc: Global,
    asked: &LogCommand,
    source: &mut S,
) -> Result<LogAnswer, Unasked>
    ensures asked { (given : List (List ℕ)) → words_asked.WordsAskForLog given asked.now
        → IfOk result (λ answer. (bytes : List ℕ) × AreBytesOf (S.left source.old) bytes × AsksForLog given bytes answer) }
    ensures reads { ReadsJob result (S.left source.old) (S.left source.new) (S.faults source.old) (S.faults source.new) }
{
    let bytes = match read_job(alloc, source) {
        Ok(bytes) => bytes,
        Err(Unread::TooLong) => return Ok(LogAnswer::TooLong),
        Err(Unread::Failed) => return Err(Unasked::ReadFault),
        Err(Unread::OutOfMemory) => return Err(Unasked::OutOfMemory),
    };
    match ask_of_bytes(alloc, asked, &bytes) {
        Ok(answer) => Ok(answer),
        Err(OutOfMemory) => Err(Unasked::OutOfMemory),
    }
}

/// What the words and the source ask for. Where the words ask for nothing, the source is not read.
pub fn ask<S: Source>(alloc: Global, words: &Words, source: &mut S) -> Result<LogAnswer, Unasked>
    ensures asked { IfOk result (λ answer. (bytes : List ℕ) × AreBytesOf (S.left source.old) bytes × AsksForLog words.now bytes answer) }
    ensures taken { OnOk result (IsLogLine words.now → AreTaken (S.left source.old) (S.left source.new)) }
    ensures unread { (IsLogLine words.now → ⊥) → source.new ≡ source.old }
    ensures fault { IsErrOf result Unasked.ReadFault → IsLogLine words.now }
    ensures source { NamesFault Unasked.ReadFault (S.faults source.old) (S.faults source.new) result }
{
    match asked_of(alloc, words) {
        Ok(asked) => ask_of_source(alloc, &asked, source),
        Err(WordsError::Usage) => Ok(LogAnswer::Usage),
        Err(WordsError::OutOfMemory) => Err(Unasked::OutOfMemory),
    }
}
