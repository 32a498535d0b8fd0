//! The text of an audit: the target that an accepted trace leads to, or the first entry that cannot come.
ghost use Rattle.std.specs.Prelude.{◌≡◌, IfOk};
ghost use Rattle.std.specs.List.{All};
ghost use Rattle.report_lines.specs.Audit.{audit_fault_line, audit_ok_line, audited_lines, refusal_word, refused_line};
ghost use Rattle.report_lines.specs.Frame.{PutsLines};
ghost use Rattle.report_lines.specs.Target.{IsLow, target_lines};
ghost use Rattle.report_lines.specs.Shown.{IsShownJob};

use crate::put::{TextEnd, put_line};
use crate::target::write_target;
use crate::views::OwnTarget;
use dap_base::{OutOfMemory, Sink};
use job_text::Job;
use probe_core::ProbeRefusal;
use std::alloc::Global;
use target_machine::Target;
use text_lines::Line;
use trace_audit::{AuditFault, Audited};

/// Puts the lines of a target, each by one `put`, as a report has them. They are the debug port, the access ports of the job in rising
/// order, the lines of the probe, and the watched words, whose addresses are below 2^64. A part that is not in the target has no line.
///
/// `WriteFault` where the sink failed, `OutOfMemory` where memory is refused: a prefix of the lines was then appended. Never
/// `BenchFault`.
#[tactic(auto, using(crate::proofs::RowLemmas::never_fails))]
pub fn target_text<K: Sink>(
    alloc: Global,
    target: &Target,
    job: &Job,
    sink: &mut K,
) -> Result<(), TextEnd>
    requires { All IsLow job.now.watch }
    ensures puts { PutsLines (target_lines target.now job.now.bench.target.aps job.now.watch) result K.written K.faults sink.old sink.new }
{
    let mut own = OwnTarget { target };
    write_target(
        alloc,
        job.bench.target.aps.as_slice(),
        job.watch.as_slice(),
        &mut own,
        sink,
    )
}

// How many entries of an accepted trace are packets, and how many are replies.
fn audit_ok_text(alloc: Global, audited: &Audited) -> Result<Line, OutOfMemory>
    ensures { IfOk result (λ line. line ≡ audit_ok_line audited.now) }
{
    let line = Line::begin(alloc, "audit ok packets ")?.decimal(u64::from(audited.packets))?;
    line.add_labelled(" replies ", u64::from(audited.replies))?
        .text("\n")
}

/// Puts the text of a trace that is accepted, each line by one `put`. It says how many of its entries are packets and replies, and the
/// target that it leads to, as `target_text` has it.
///
/// `WriteFault` where the sink failed, `OutOfMemory` where memory is refused: a prefix of the text was then appended. Never
/// `BenchFault`.
pub fn audit_text<K: Sink>(
    alloc: Global,
    audited: &Audited,
    job: &Job,
    sink: &mut K,
) -> Result<(), TextEnd>
    requires { IsShownJob job.now }
    ensures puts { PutsLines (audited_lines audited.now job.now) result K.written K.faults sink.old sink.new }
{
    put_line(audit_ok_text(alloc, audited), sink)?;
    target_text(alloc, audited.probe.target(), job, sink)
}

// Why a probe does not take a packet.
fn refusal_text(refusal: ProbeRefusal) -> &'static str
    ensures { result.now ≡ refusal_word refusal }
{
    match refusal {
        ProbeRefusal::TooLong => "TooLong",
        ProbeRefusal::Held => "Held",
        ProbeRefusal::Unread => "Unread",
    }
}

// The first entry that cannot come.
fn refused_text(alloc: Global, kind: &str, number: u32) -> Result<Line, OutOfMemory>
    ensures { IfOk result (λ line. line ≡ refused_line kind.now number) }
{
    let line = Line::begin(alloc, "refused audit ")?.text(kind)?;
    line.add_labelled(" ", u64::from(number))?.text("\n")
}

// Puts the line of a trace that is refused.
fn write_refused<K: Sink>(
    alloc: Global,
    kind: &str,
    number: u32,
    sink: &mut K,
) -> Result<(), TextEnd>
    ensures puts { PutsLines (refused_line kind.now number) result K.written K.faults sink.old sink.new }
{
    put_line(refused_text(alloc, kind, number), sink)
}

/// Puts the line of a trace that is refused, by one `put`: why, and the number of the first entry that cannot come. At the fault
/// `OutOfMemory` nothing is put.
///
/// `WriteFault` where the sink failed, `OutOfMemory` where memory is refused: a prefix of the line was then appended. Never
/// `BenchFault`.
#[tactic(auto, using(text_lines::proofs::PutLemmas::nothing, crate::proofs::FrameLemmas::frames))]
pub fn audit_fault_text<K: Sink>(
    alloc: Global,
    fault: AuditFault,
    sink: &mut K,
) -> Result<(), TextEnd>
    ensures puts { PutsLines (audit_fault_line fault) result K.written K.faults sink.old sink.new }
{
    match fault {
        AuditFault::Refused(number, refusal) => {
            write_refused(alloc, refusal_text(refusal), number, sink)
        }
        AuditFault::NoReply(number) => write_refused(alloc, "NoReply", number, sink),
        AuditFault::WrongReply(number) => write_refused(alloc, "WrongReply", number, sink),
        AuditFault::OutOfMemory => Ok(()),
    }
}
