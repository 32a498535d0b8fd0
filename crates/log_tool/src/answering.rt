//! What is written.
ghost use Rattle.std.specs.Prelude.{◌≡◌, ◌++◌};
ghost use Rattle.text_lines.specs.Puts.{PutsText};
ghost use Rattle.log_tool.specs.Answers.{log_answer_status, log_answer_text, log_usage_line, of_run};

use crate::asking::LogAnswer;
use crate::log::{RunLog, RunStatus};
use crate::status::LogStatus;
use check_lines::{write_no_sequence, write_refusal, write_too_long};
use dap_base::Sink;
use std::alloc::Global;
use text_lines::{TextError, put_text};

// The status of a run whose log is written.
fn of_run(status: RunStatus) -> LogStatus
    ensures { result ≡ of_run status }
{
    match status {
        RunStatus::Done => LogStatus::Done,
        RunStatus::Failed => LogStatus::Failed,
        RunStatus::Stopped => LogStatus::Stopped,
    }
}

/// The status where an answer is written.
#[tactic(auto, unfolding(crate::specs::Answers::log_answer_status))]
pub fn status_of(answer: &LogAnswer) -> LogStatus
    ensures { result ≡ log_answer_status answer.now }
{
    match answer {
        LogAnswer::Usage => LogStatus::Usage,
        LogAnswer::TooLong | LogAnswer::NoSequence | LogAnswer::Refused(_) => LogStatus::Refused,
        LogAnswer::Log(log) => of_run(log.status),
    }
}

const USAGE: &[u8] =
    b"usage dapseq_log --device NAME --sequence NAME [--variant NAME] [--pname NAME] [--turns N] [--fail] < JOB\n";

// Writes the line of words that ask for nothing.
fn write_usage<K: Sink>(sink: &mut K) -> Result<(), TextError>
    ensures puts { PutsText log_usage_line result TextError.Failed K.written K.faults sink.old sink.new }
{
    put_text(USAGE, sink)
}

// Writes a log: what was seen, by one `put`, and then the last lines.
fn write_log<K: Sink>(log: &RunLog, sink: &mut K) -> Result<(), TextError>
    ensures puts { PutsText (log.now.log.text ++ log.now.last) result TextError.Failed K.written K.faults sink.old sink.new }
{
    match put_text(log.log.as_bytes(), sink) {
        Ok(()) => put_text(log.last.as_bytes(), sink),
        Err(error) => Err(error),
    }
}

/// Writes the text of an answer. At an error a part of it was written, from its front.
#[tactic(auto, unfolding(crate::specs::Answers::log_answer_text))]
pub fn write_answer<K: Sink>(
    alloc: Global,
    answer: &LogAnswer,
    sink: &mut K,
) -> Result<(), TextError>
    ensures puts { PutsText (log_answer_text answer.now) result TextError.Failed K.written K.faults sink.old sink.new }
{
    match answer {
        LogAnswer::Usage => write_usage(sink),
        LogAnswer::TooLong => write_too_long(sink),
        LogAnswer::NoSequence => write_no_sequence(sink),
        LogAnswer::Refused(refusal) => write_refusal(alloc, refusal, sink),
        LogAnswer::Log(log) => write_log(log, sink),
    }
}
