//! The whole call.
ghost use Rattle.std.specs.Prelude.{◌≡◌, ◌≢◌, ◌⊎◌, ℕ, List, Some};
ghost use Rattle.dap_base.specs.Causes.{IsQuiet, Rose};
ghost use Rattle.faults_tool.specs.Answers.{faults_answer_status, faults_answer_text};
ghost use Rattle.faults_tool.specs.Asked.{AreAllValid, IsFaultsLine, IsFaultsUsage};
ghost use Rattle.faults_tool.specs.Calls.{faults_fault_statuses, faults_program, IsCallOfValid};
ghost use Rattle.job_source.specs.Source.{AreTaken};
ghost use Rattle.tool_calls.specs.Calls.{failed_status, source_fault_line, moment, Blames, Does, Finishes, IsDisturbed, CallIsDone, PutsAs};

use crate::answering::{status_of, write_answer};
use crate::asking::{FaultsAnswer, ask};
use crate::status::FaultsStatus;
use dap_base::{Sink, Source, Words};
use std::alloc::Global;
use text_lines::TextError;
use tool_calls::Unasked;

// The status where a text was not written whole.
fn failed_status(end: TextError) -> FaultsStatus
    ensures { result ≡ failed_status faults_fault_statuses end }
{
    match end {
        TextError::Failed => FaultsStatus::WriteFault,
        TextError::OutOfMemory => FaultsStatus::OutOfMemory,
    }
}

// Writes an answer.
fn answer<K: Sink>(alloc: Global, answer: &FaultsAnswer, sink: &mut K) -> FaultsStatus
    ensures { PutsAs faults_fault_statuses (faults_answer_text answer.now) (faults_answer_status answer.now) result K.written K.faults sink.old sink.new }
{
    match write_answer(alloc, answer, sink) {
        Ok(()) => status_of(answer),
        Err(end) => failed_status(end),
    }
}

// Reports that the source failed.
fn read_fault<K: Sink>(sink: &mut K) -> FaultsStatus
    ensures puts { PutsAs faults_fault_statuses source_fault_line FaultsStatus.ReadFault result K.written K.faults sink.old sink.new }
    ensures ends { (result ≡ FaultsStatus.ReadFault) ⊎ (result ≡ FaultsStatus.WriteFault) }
{
    match sink.put(b"end readfault\n") {
        Ok(()) => FaultsStatus::ReadFault,
        Err(_) => FaultsStatus::WriteFault,
    }
}

// Writes what is asked for, or what is written where that is not known.
fn finish<K: Sink>(
    alloc: Global,
    asked: &Result<FaultsAnswer, Unasked>,
    sink: &mut K,
) -> FaultsStatus
    ensures { Finishes faults_program asked.now result K.written K.faults sink.old sink.new }
{
    match asked {
        Ok(asked) => answer(alloc, asked, sink),
        Err(Unasked::ReadFault) => read_fault(sink),
        Err(Unasked::OutOfMemory) => FaultsStatus::OutOfMemory,
    }
}

/// Checks the set of every device, variant and processor of a pack, or of those that the words name, and writes every fault
/// once, with the sets that have it.
///
/// `words` are those after the program's name: `--device`, `--variant` and `--pname` with a name, `--format` with `text`, `json` or
/// `sarif`, and `--warnings`. Each comes at most once, and the format is `text` where none is given. With `--warnings` the warnings of
/// these sets are written after the faults. They never change the status. The source has the job, one JSON text of at most 16,777,216
/// bytes. Its pack alone is read; a job without `bench` is taken.
///
/// | Status | What was written |
/// |---|---|
/// | `Done` | the line of counts, or the JSON object or the SARIF log without a fault: each set is valid |
/// | `Faulty` | the faults |
/// | `Refused` | one line `refused`: `TooLong`, `BadJson`, the first fault of the job with its path, `NoDevice`, `NoVariant` or `NoPname` |
/// | `Usage` | the usage line; the source was not read |
/// | `ReadFault` | `end readfault`: the source failed |
/// | `WriteFault`, `OutOfMemory` | a part of one of these texts, from its front: the sink failed, or memory was refused |
pub fn dapseq_faults<S: Source, K: Sink>(
    alloc: Global,
    words: &Words,
    source: &mut S,
    sink: &mut K,
) -> FaultsStatus
    // What the words and the bytes ask for was written.
    ensures asked { let at = moment S.left S.faults K.written K.faults in
        Does faults_program (record { words = words.now; old = at source.old sink.old; new = at source.new sink.new; end = result }) }
    // It was written whole with its own status, unless the source or the sink failed or memory was refused.
    ensures success { let at = moment S.left S.faults K.written K.faults in
        IsQuiet (S.faults source.old) (S.faults source.new) → IsQuiet (K.faults sink.old) (K.faults sink.new) → result ≢ FaultsStatus.OutOfMemory
        → CallIsDone faults_program (record { words = words.now; old = at source.old sink.old; new = at source.new sink.new; end = result }) }

    // The status is `Done` only where each of the sets is valid, and where each is, it is no other without a fault outside.
    ensures valid { result ≡ FaultsStatus.Done → IsCallOfValid words.now (S.left source.old) }
    ensures valid_only { (bytes : List ℕ) → S.left source.old ≡ Some bytes → AreAllValid words.now bytes
        → (result ≡ FaultsStatus.Done) ⊎ IsDisturbed faults_fault_statuses result }

    // The words alone decide on the usage, and whether the source is read: to its end, or one byte too far.
    ensures usage { result ≡ FaultsStatus.Usage → IsFaultsUsage words.now }
    ensures usage_only { IsFaultsUsage words.now → (result ≡ FaultsStatus.Usage) ⊎ (result ≡ FaultsStatus.WriteFault) ⊎ (result ≡ FaultsStatus.OutOfMemory) }
    ensures unread { (IsFaultsLine words.now → ⊥) → source.new ≡ source.old }
    ensures taken { IsFaultsLine words.now → IsQuiet (S.faults source.old) (S.faults source.new) → result ≢ FaultsStatus.OutOfMemory
        → AreTaken (S.left source.old) (S.left source.new) }

    // Each fault has its cause, and a fault outside is reported.
    ensures read { result ≡ FaultsStatus.ReadFault → Rose (S.faults source.old) (S.faults source.new) }
    ensures source_counted { (S.faults source.new ≡ S.faults source.old) ⊎ (result ≡ FaultsStatus.ReadFault) ⊎ (result ≡ FaultsStatus.WriteFault) }
    ensures sink { Blames FaultsStatus.WriteFault result (K.faults sink.old) (K.faults sink.new) }
{
    let asked = ask(alloc, words, source);
    let status = finish(alloc, &asked, sink);
    // (a call drops the parts of all that can be answered; here they would be part of this function's proof)
    drop(asked);
    status
}
