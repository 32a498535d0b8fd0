//! The lines of a report before those of the target.
#![tactic(auto, using(crate::proofs::FrameLemmas::frames))]

ghost use Rattle.std.specs.Prelude.{◌++◌};
ghost use Rattle.report_lines.specs.Lines.{variable_line};
ghost use Rattle.report_lines.specs.Endings.{attempted_part, count_lines, done_line, ending_lines, halted_line, skipped_part, stop_line, values_part, variable_lines};
ghost use Rattle.report_lines.specs.Frame.{PutsLines};

use crate::endings::{
    attempted_text, bench_fault_text, halted_text, reply_bad_text, skipped_text, stop_line_text,
};
use crate::lines::{units_text, variable_text};
use crate::put::{TextEnd, put, put_line};
use access_calls::{Ended, Ending, Report};
use dap_base::Sink;
use std::alloc::Global;
use target_machine::{HaltCause, Variable};

// Puts how many units were skipped, where there are any.
#[tactic(auto, using(text_lines::proofs::PutLemmas::nothing, crate::proofs::FrameLemmas::frames))]
fn write_skipped<K: Sink>(alloc: Global, skipped: u32, sink: &mut K) -> Result<(), TextEnd>
    ensures puts { PutsLines (skipped_part skipped) result K.written K.faults sink.old sink.new }
{
    if skipped == 0 {
        return Ok(());
    }
    put_line(skipped_text(alloc, skipped), sink)
}

// Puts the line of a variable.
fn write_variable<K: Sink>(alloc: Global, variable: &Variable, sink: &mut K) -> Result<(), TextEnd>
    ensures puts { PutsLines (variable_line variable.now.name variable.now.value) result K.written K.faults sink.old sink.new }
{
    put_line(
        variable_text(alloc, variable.name.as_str(), variable.value),
        sink,
    )
}

// Puts the lines of the variables.
fn write_variables<K: Sink>(
    alloc: Global,
    variables: &[Variable],
    sink: &mut K,
) -> Result<(), TextEnd>
    ensures puts { PutsLines (variable_lines variables.now) result K.written K.faults sink.old sink.new }
{
    for variable in variables {
        write_variable(alloc, variable, sink)?;
    }
    Ok(())
}

// Puts those units that were skipped, and the variables.
fn write_values<K: Sink>(alloc: Global, ended: &Ended, sink: &mut K) -> Result<(), TextEnd>
    ensures puts { PutsLines (values_part ended.now) result K.written K.faults sink.old sink.new }
{
    write_skipped(alloc, ended.skipped, sink)?;
    write_variables(alloc, ended.variables.as_slice(), sink)
}

// Puts the units, those that were skipped, and the variables.
fn write_counts<K: Sink>(alloc: Global, ended: &Ended, sink: &mut K) -> Result<(), TextEnd>
    ensures puts { PutsLines (count_lines ended.now) result K.written K.faults sink.old sink.new }
{
    let line = units_text(alloc, ended.units as u64);
    put_line(line, sink)?;
    write_values(alloc, ended, sink)
}

// Puts the lines of a run that came to its end.
fn write_done<K: Sink>(alloc: Global, ended: &Ended, sink: &mut K) -> Result<(), TextEnd>
    ensures puts { PutsLines (done_line ++ count_lines ended.now) result K.written K.faults sink.old sink.new }
{
    put(b"end done\n", sink)?;
    write_counts(alloc, ended, sink)
}

// Puts the lines of a run that was halted.
fn write_halted<K: Sink>(
    alloc: Global,
    cause: HaltCause,
    ended: &Ended,
    sink: &mut K,
) -> Result<(), TextEnd>
    ensures puts { PutsLines (halted_line cause ++ count_lines ended.now) result K.written K.faults sink.old sink.new }
{
    let line = halted_text(alloc, cause);
    put_line(line, sink)?;
    write_counts(alloc, ended, sink)
}

// Puts how far a run came that was stopped.
fn write_attempted<K: Sink>(
    alloc: Global,
    report: &Report,
    skipped: u32,
    sink: &mut K,
) -> Result<(), TextEnd>
    ensures puts { PutsLines (attempted_part report.now skipped) result K.written K.faults sink.old sink.new }
{
    let line = attempted_text(alloc, report);
    put_line(line, sink)?;
    write_skipped(alloc, skipped, sink)
}

// Puts the lines of a run that the target or the probe stopped.
fn write_cut<K: Sink>(
    alloc: Global,
    report: &Report,
    skipped: u32,
    sink: &mut K,
) -> Result<(), TextEnd>
    ensures puts { PutsLines (stop_line report.now ++ attempted_part report.now skipped) result K.written K.faults sink.old sink.new }
{
    let line = stop_line_text(alloc, report);
    put_line(line, sink)?;
    write_attempted(alloc, report, skipped, sink)
}

/// Puts the lines of a report before those of the target.
#[tactic(auto, using(text_lines::proofs::PutLemmas::nothing, crate::proofs::FrameLemmas::frames))]
pub fn write_ending<K: Sink>(
    alloc: Global,
    ended: &Ended,
    sent: &[u8],
    got: &[u8],
    sink: &mut K,
) -> Result<(), TextEnd>
    ensures puts { PutsLines (ending_lines ended.now.ending ended.now sent.now got.now) result K.written K.faults sink.old sink.new }
{
    match ended.ending {
        Ending::Done => write_done(alloc, ended, sink),
        Ending::Halted(cause) => write_halted(alloc, cause, ended, sink),
        Ending::Cut(report) => write_cut(alloc, &report, ended.skipped, sink),
        Ending::BenchFault { issued, confirmed } => {
            put_line(bench_fault_text(alloc, issued, confirmed), sink)
        }
        Ending::ReplyBad => put_line(reply_bad_text(alloc, sent, got), sink),
        Ending::WriteFault | Ending::OutOfMemory => Ok(()),
    }
}
