//! The audit of the trace of a job.
ghost use Rattle.std.specs.Prelude.{◌≡◌, ◌≢◌, IfOk};
ghost use Rattle.probe_core.specs.Ranges.{IsBenchJob};
ghost use Rattle.job_text.specs.Answers.{Describes};
ghost use Rattle.job_text.specs.Ranges.{AreWatched};
ghost use Rattle.dapseq_tool.specs.Audit.{AsksOfAudit, IsAuditOf};
ghost use Rattle.dapseq_tool.specs.Asked.{IsSoundAnswer};
ghost use Rattle.dapseq_tool.specs.Frame.{IsFit};

use crate::asking::{Answer, What};
use dap_base::OutOfMemory;
use job_check::{CheckRefusal, read_job};
use job_text::Job;
use std::alloc::Global;
use trace_audit::{AuditFault, Audited, audit, entries_of};

/// A trace that is accepted.
#[derive(Drop)]
pub struct Audit {
    /// The job with the trace.
    pub job: Job,
    /// The probe after the trace, and how many of its entries are packets and replies.
    pub audited: Audited,
}

// The answer to a trace that is refused, unless memory was.
#[tactic(auto, unfolding(crate::specs::Asked::IsSoundAnswer))]
fn refuse(fault: AuditFault) -> Result<Answer, OutOfMemory>
    ensures answer { IfOk result (λ answer. answer ≡ Answer.AuditRefused fault) }
    ensures some { IfOk result (λ answer. fault ≢ AuditFault.OutOfMemory) }
    ensures sound { IfOk result IsSoundAnswer }
    ensures used { IfOk result (λ answer. answer ≢ Answer.Usage) }
{
    match fault {
        AuditFault::Refused(..) | AuditFault::NoReply(_) | AuditFault::WrongReply(_) => {
            Ok(Answer::AuditRefused(fault))
        }
        AuditFault::OutOfMemory => Err(OutOfMemory),
    }
}

// What an audit of the trace of a job answers.
#[tactic(auto, unfolding(crate::specs::Asked::IsSoundAnswer))]
fn audit_job(alloc: Global, job: Job) -> Result<Answer, OutOfMemory>
    requires described { (bytes : _) × Describes bytes job }
    requires bench { IsBenchJob job.bench }
    requires watch { AreWatched job.bench.target.memory job.watch }
    ensures answer { IfOk result (IsAuditOf job) }
    ensures sound { IfOk result IsSoundAnswer }
    ensures used { IfOk result (λ answer. answer ≢ Answer.Usage) }
{
    let Some(texts) = &job.trace else {
        return Ok(Answer::NoTrace);
    };
    let entries = entries_of(alloc, texts)?;
    match audit(alloc, &job.bench, &entries) {
        Ok(audited) => Ok(Answer::Audited(Audit { job, audited })),
        Err(fault) => refuse(fault),
    }
}

/// What the bytes of a job ask for in the mode `audit`.
pub fn ask_for_audit(alloc: Global, bytes: &[u8]) -> Result<What, OutOfMemory>
    ensures asked { IfOk result (AsksOfAudit bytes.now) }
    ensures fit { IfOk result (IsFit ⊥) }
{
    match read_job(alloc, bytes) {
        Ok(job) => {
            let answer = audit_job(alloc, job)?;
            Ok(What::Answer(answer))
        }
        Err(CheckRefusal::Refused(refusal)) => Ok(What::Answer(Answer::Refused(refusal))),
        Err(CheckRefusal::OutOfMemory) => Err(OutOfMemory),
    }
}
