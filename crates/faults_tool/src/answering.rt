//! What is written.
ghost use Rattle.std.specs.Prelude.{◌≡◌};
ghost use Rattle.text_lines.specs.Puts.{PutsText};
ghost use Rattle.faults_tool.specs.Answers.{faults_answer_text, faults_answer_status, faults_in_format, warned_in, list_status, no_pname_line, faults_usage_line};

use crate::asking::FaultsAnswer;
use crate::status::FaultsStatus;
use check_lines::{write_refusal, write_too_long};
use dap_base::Sink;
use fault_json::{write_json, write_sarif, write_warned_json, write_warned_sarif};
use fault_lines::{write_faults, write_warned};
use faults_words::Format;
use pack_faults::{PackFault, PackFaults};
use pack_warnings::PackWarning;
use std::alloc::Global;
use text_lines::{TextError, put_text};

// The status where these faults are written.
fn list_status(faults: &[PackFault]) -> FaultsStatus
    ensures { result ≡ list_status faults.now }
{
    match faults {
        [] => FaultsStatus::Done,
        _ => FaultsStatus::Faulty,
    }
}

/// The status where an answer is written.
#[tactic(auto, unfolding(crate::specs::Answers::faults_answer_status))]
pub fn status_of(answer: &FaultsAnswer) -> FaultsStatus
    ensures { result ≡ faults_answer_status answer.now }
{
    match answer {
        FaultsAnswer::Usage => FaultsStatus::Usage,
        FaultsAnswer::TooLong | FaultsAnswer::Refused(_) | FaultsAnswer::NoPname =>
            FaultsStatus::Refused,
        FaultsAnswer::Faults(_, faults) | FaultsAnswer::Warned(_, faults, _) => {
            list_status(faults.faults.as_slice())
        }
    }
}

const USAGE: &[u8] =
    b"usage dapseq_faults [--device NAME] [--variant NAME] [--pname NAME] [--format text|json|sarif] [--warnings] < JOB\n";

// Writes the line of words that ask for nothing.
fn write_usage<K: Sink>(sink: &mut K) -> Result<(), TextError>
    ensures puts { PutsText faults_usage_line result TextError.Failed K.written K.faults sink.old sink.new }
{
    put_text(USAGE, sink)
}

// Writes the line of a processor that no sequence is for.
fn write_no_pname<K: Sink>(sink: &mut K) -> Result<(), TextError>
    ensures puts { PutsText no_pname_line result TextError.Failed K.written K.faults sink.old sink.new }
{
    put_text(b"refused NoPname\n", sink)
}

// Writes all faults in this format.
fn write_formatted<K: Sink>(
    alloc: Global,
    format: Format,
    faults: &PackFaults,
    sink: &mut K,
) -> Result<(), TextError>
    ensures puts { PutsText (faults_in_format format faults.now) result TextError.Failed K.written K.faults sink.old sink.new }
{
    match format {
        Format::Text => write_faults(alloc, faults, sink),
        Format::Json => write_json(alloc, faults, sink),
        Format::Sarif => write_sarif(alloc, faults, sink),
    }
}

// Writes all faults and warnings in this format.
fn write_list<K: Sink>(
    alloc: Global,
    format: Format,
    faults: &PackFaults,
    warnings: &[PackWarning],
    sink: &mut K,
) -> Result<(), TextError>
    ensures puts { PutsText (warned_in format faults.now warnings.now) result TextError.Failed K.written K.faults sink.old sink.new }
{
    match format {
        Format::Text => write_warned(alloc, faults, warnings, sink),
        Format::Json => write_warned_json(alloc, faults, warnings, sink),
        Format::Sarif => write_warned_sarif(alloc, faults, warnings, sink),
    }
}

/// Writes the text of an answer. At an error a part of it was written, from its front.
#[tactic(auto, unfolding(crate::specs::Answers::faults_answer_text))]
pub fn write_answer<K: Sink>(
    alloc: Global,
    answer: &FaultsAnswer,
    sink: &mut K,
) -> Result<(), TextError>
    ensures puts { PutsText (faults_answer_text answer.now) result TextError.Failed K.written K.faults sink.old sink.new }
{
    match answer {
        FaultsAnswer::Usage => write_usage(sink),
        FaultsAnswer::TooLong => write_too_long(sink),
        FaultsAnswer::Refused(refusal) => write_refusal(alloc, refusal, sink),
        FaultsAnswer::NoPname => write_no_pname(sink),
        FaultsAnswer::Faults(format, faults) => write_formatted(alloc, *format, faults, sink),
        FaultsAnswer::Warned(format, faults, warnings) => {
            write_list(alloc, *format, faults, warnings.as_slice(), sink)
        }
    }
}
