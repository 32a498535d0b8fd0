//! The whole call.
ghost use Rattle.std.specs.Prelude.{◌≡◌, ◌≢◌, ◌⊎◌, ℕ, List, Some};
ghost use Rattle.dap_base.specs.Causes.{IsQuiet, Rose};
ghost use Rattle.log_tool.specs.Answers.{log_answer_status, log_answer_text};
ghost use Rattle.log_tool.specs.Asked.{IsLogLine, IsLogUsage, RunsWithStatus};
ghost use Rattle.log_tool.specs.Calls.{log_fault_statuses, log_program, IsOfRun, SourceRunsTo};
ghost use Rattle.job_source.specs.Source.{AreTaken};
ghost use Rattle.tool_calls.specs.Calls.{failed_status, source_fault_line, moment, Blames, Does, Finishes, IsDisturbed, CallIsDone, PutsAs};

use crate::answering::{status_of, write_answer};
use crate::asking::{LogAnswer, ask};
use crate::status::LogStatus;
use dap_base::{Sink, Source, Words};
use std::alloc::Global;
use text_lines::TextError;
use tool_calls::Unasked;

// The status where a text was not written whole.
fn failed_status(end: TextError) -> LogStatus
    ensures { result ≡ failed_status log_fault_statuses end }
{
    match end {
        TextError::Failed => LogStatus::WriteFault,
        TextError::OutOfMemory => LogStatus::OutOfMemory,
    }
}

// Writes an answer.
fn answer<K: Sink>(alloc: Global, answer: &LogAnswer, sink: &mut K) -> LogStatus
    ensures { PutsAs log_fault_statuses (log_answer_text answer.now) (log_answer_status answer.now) result K.written K.faults sink.old sink.new }
{
    match write_answer(alloc, answer, sink) {
        Ok(()) => status_of(answer),
        Err(end) => failed_status(end),
    }
}

// Reports that the source failed.
fn read_fault<K: Sink>(sink: &mut K) -> LogStatus
    ensures puts { PutsAs log_fault_statuses source_fault_line LogStatus.ReadFault result K.written K.faults sink.old sink.new }
    ensures ends { (result ≡ LogStatus.ReadFault) ⊎ (result ≡ LogStatus.WriteFault) }
{
    match sink.put(b"end readfault\n") {
        Ok(()) => LogStatus::ReadFault,
        Err(_) => LogStatus::WriteFault,
    }
}

// Writes what is asked for, or what is written where that is not known.
fn finish<K: Sink>(alloc: Global, asked: &Result<LogAnswer, Unasked>, sink: &mut K) -> LogStatus
    ensures { Finishes log_program asked.now result K.written K.faults sink.old sink.new }
{
    match asked {
        Ok(asked) => answer(alloc, asked, sink),
        Err(Unasked::ReadFault) => read_fault(sink),
        Err(Unasked::OutOfMemory) => LogStatus::OutOfMemory,
    }
}

/// Runs a sequence of a job on the target of the job, each unit alone and at once, and writes the log of the run.
///
/// `words` are those after the program's name: `--device` and `--sequence` with a name, `--variant` and `--pname` with a name, `--turns`
/// with a number from 0 to 1,000,000, and `--fail`. Each comes at most once, and the turns are 2 where they are absent. The source has the
/// job, one JSON text of at most 16,777,216 bytes. Of each loop the first turns are shown, so many, and the last one.
///
/// | Status | What was written |
/// |---|---|
/// | `Done` | the log of a run that came to its end |
/// | `Failed` | the same; with `--fail`, where an error was written by `Message(2, ..)`, a loop timed out or `__Result` is not 0 |
/// | `Stopped` | the log of a run that halted, or whose last unit met a fault that it does not forgive |
/// | `Refused` | one line `refused`: `TooLong`, or why no sequence of the job runs, as `dapseq` writes it |
/// | `Usage` | the usage line; the source was not read |
/// | `ReadFault` | `end readfault`: the source failed |
/// | `WriteFault`, `OutOfMemory` | a part of one of these texts, from its front: the sink failed, or memory was refused |
pub fn dapseq_log<S: Source, K: Sink>(
    alloc: Global,
    words: &Words,
    source: &mut S,
    sink: &mut K,
) -> LogStatus
    // What the words and the bytes ask for was written.
    ensures asked { let at = moment S.left S.faults K.written K.faults in
        Does log_program (record { words = words.now; old = at source.old sink.old; new = at source.new sink.new; end = result }) }
    // It was written whole with its own status, unless the source or the sink failed or memory was refused.
    ensures success { let at = moment S.left S.faults K.written K.faults in
        IsQuiet (S.faults source.old) (S.faults source.new) → IsQuiet (K.faults sink.old) (K.faults sink.new) → result ≢ LogStatus.OutOfMemory
        → CallIsDone log_program (record { words = words.now; old = at source.old sink.old; new = at source.new sink.new; end = result }) }

    // The status of a run comes only where a sequence of the job runs, and is that of its run. Where one runs, it is no other without a
    // fault outside.
    ensures run { IsOfRun result → SourceRunsTo words.now (S.left source.old) result }
    ensures run_only { (bytes : List ℕ) (end : LogStatus) → S.left source.old ≡ Some bytes → RunsWithStatus words.now bytes end
        → (result ≡ end) ⊎ IsDisturbed log_fault_statuses result }

    // The words alone decide on the usage, and whether the source is read: to its end, or one byte too far.
    ensures usage { result ≡ LogStatus.Usage → IsLogUsage words.now }
    ensures usage_only { IsLogUsage words.now → (result ≡ LogStatus.Usage) ⊎ (result ≡ LogStatus.WriteFault) ⊎ (result ≡ LogStatus.OutOfMemory) }
    ensures unread { (IsLogLine words.now → ⊥) → source.new ≡ source.old }
    ensures taken { IsLogLine words.now → IsQuiet (S.faults source.old) (S.faults source.new) → result ≢ LogStatus.OutOfMemory
        → AreTaken (S.left source.old) (S.left source.new) }

    // Each fault has its cause, and a fault outside is reported.
    ensures read { result ≡ LogStatus.ReadFault → Rose (S.faults source.old) (S.faults source.new) }
    ensures source_counted { (S.faults source.new ≡ S.faults source.old) ⊎ (result ≡ LogStatus.ReadFault) ⊎ (result ≡ LogStatus.WriteFault) }
    ensures sink { Blames LogStatus.WriteFault result (K.faults sink.old) (K.faults sink.new) }
{
    let asked = ask(alloc, words, source);
    let status = finish(alloc, &asked, sink);
    // (a call drops the parts of all that can be answered; here they would be part of this function's proof)
    drop(asked);
    status
}
