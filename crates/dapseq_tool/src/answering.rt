//! What is written where no sequence runs, and before one runs.
ghost use Rattle.std.specs.Prelude.{◌≡◌, ◌≢◌, ◌⊎◌, ◌↔◌, Some, IfErr, IfOk, IsSome};
ghost use Rattle.text_lines.specs.Puts.{PutsText};
ghost use Rattle.report_lines.specs.Audit.{audit_fault_line, audited_lines};
ghost use Rattle.dapseq_tool.specs.Answers.{answer_text, answer_status, head_text};
ghost use Rattle.dapseq_tool.specs.Asked.{IsSoundAnswer, IsSoundAudit};

use crate::asking::Answer;
use crate::auditing::Audit;
use crate::status::Status;
use check_lines::{write_check, write_no_sequence, write_refusal, write_too_long, write_usage};
use dap_base::{OutOfMemory, Sink};
use report_lines::{TextEnd, audit_fault_text, audit_text};
use std::alloc::Global;
use text_lines::{Line, TextError, put_line, put_text};
use trace_audit::AuditFault;

/// The status of an answer that is written.
#[tactic(auto, unfolding(crate::specs::Answers::answer_status))]
pub fn status_of(answer: &Answer) -> Status
    ensures { result ≡ answer_status answer.now }
{
    match answer {
        Answer::Usage => Status::Usage,
        Answer::TooLong | Answer::NoSequence | Answer::Refused(_) => Status::Refused,
        Answer::AuditRefused(_) | Answer::NoTrace => Status::Refused,
        Answer::CheckOk(_) | Answer::Audited(_) => Status::Done,
    }
}

// Why a text was not written whole that no bench is asked for.
fn text_error(end: TextEnd) -> TextError
    requires { end ≢ TextEnd.BenchFault }
    ensures { (result ≡ TextError.Failed) ↔ (end ≡ TextEnd.WriteFault) }
{
    match end {
        TextEnd::WriteFault => TextError::Failed,
        TextEnd::OutOfMemory => TextError::OutOfMemory,
        TextEnd::BenchFault => unreachable!(),
    }
}

// Writes the text of a trace that is accepted.
fn write_audited<K: Sink>(alloc: Global, audit: &Audit, sink: &mut K) -> Result<(), TextError>
    requires { IsSoundAudit audit.now }
    ensures puts { PutsText (audited_lines audit.now.audited audit.now.job) result TextError.Failed K.written K.faults sink.old sink.new }
{
    match audit_text(alloc, &audit.audited, &audit.job, sink) {
        Ok(()) => Ok(()),
        Err(end) => Err(text_error(end)),
    }
}

// Writes the line of a trace that is refused.
fn write_audit_fault<K: Sink>(
    alloc: Global,
    fault: AuditFault,
    sink: &mut K,
) -> Result<(), TextError>
    ensures puts { PutsText (audit_fault_line fault) result TextError.Failed K.written K.faults sink.old sink.new }
{
    match audit_fault_text(alloc, fault, sink) {
        Ok(()) => Ok(()),
        Err(end) => Err(text_error(end)),
    }
}

/// Writes the text of an answer. At an error a part of it was written, from its front.
pub fn write_answer<K: Sink>(alloc: Global, answer: &Answer, sink: &mut K) -> Result<(), TextError>
    requires { IsSoundAnswer answer.now }
    ensures puts { PutsText (answer_text answer.now) result TextError.Failed K.written K.faults sink.old sink.new }
{
    match answer {
        Answer::Usage => write_usage(sink),
        Answer::TooLong => write_too_long(sink),
        Answer::NoSequence => write_no_sequence(sink),
        Answer::Refused(refusal) => write_refusal(alloc, refusal, sink),
        Answer::CheckOk(set) => write_check(alloc, set, sink),
        Answer::Audited(audit) => write_audited(alloc, audit, sink),
        Answer::AuditRefused(fault) => write_audit_fault(alloc, *fault, sink),
        Answer::NoTrace => put_text(b"refused Missing #/trace\n", sink),
    }
}

// The first line where a job is made of a number.
fn head_line(alloc: Global, number: u16) -> Result<Line, OutOfMemory>
    ensures { IfOk result (λ line. line ≡ head_text (Some number)) }
{
    Line::begin(alloc, "gen ")?
        .decimal(number as u64)?
        .text("\n")
}

/// Writes the first line where a job is made of a number, and else nothing. At an error a part of it
/// was written, from its front.
#[tactic(auto, using(text_lines::proofs::PutLemmas::nothing))]
pub fn write_head<K: Sink>(
    alloc: Global,
    number: Option<u16>,
    sink: &mut K,
) -> Result<(), TextError>
    ensures puts { PutsText (head_text number) result TextError.Failed K.written K.faults sink.old sink.new }
    ensures some { IfErr result (λ e. IsSome number) }
{
    match number {
        Some(number) => put_line(head_line(alloc, number), sink),
        None => Ok(()),
    }
}
