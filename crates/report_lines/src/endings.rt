//! How a run ended, as a report shows it.
ghost use Rattle.std.specs.Prelude.{◌≡◌, ◌++◌, codes, decimal, IfOk};
ghost use Rattle.hex.specs.Hex.{encode_lower};
ghost use Rattle.report_lines.specs.Calls.{call_words};
ghost use Rattle.report_lines.specs.Endings.{attempted_line, bench_fault_line, halted_line, reply_bad_line, skipped_line, stop_line};
ghost use Rattle.report_lines.specs.Words.{stop_word};

use crate::calls::with_call;
use crate::words::{halt_text, stop_text};
use access_calls::Report;
use dap_base::OutOfMemory;
use std::alloc::Global;
use target_machine::HaltCause;
use text_lines::Line;

/// The line of a run that was halted. `OutOfMemory` where memory is refused.
pub fn halted_text(alloc: Global, cause: HaltCause) -> Result<Line, OutOfMemory>
    ensures { IfOk result (λ line. line ≡ halted_line cause) }
{
    let line = Line::begin(alloc, "end halted ")?;
    line.text(halt_text(cause))?.text("\n")
}

/// How many units were skipped.
pub fn skipped_text(alloc: Global, skipped: u32) -> Result<Line, OutOfMemory>
    ensures { IfOk result (λ line. line ≡ skipped_line skipped) }
{
    let line = Line::begin(alloc, "skipped ")?;
    line.decimal(u64::from(skipped))?.text("\n")
}

// Which unit stopped the run.
fn begin_stop(alloc: Global, report: &Report) -> Result<Line, OutOfMemory>
    ensures { IfOk result (λ line. line ≡ codes "end " ++ stop_word report.now.cause ++ codes " unit " ++ decimal report.now.unit ++ codes " ") }
{
    let line = Line::begin(alloc, "end ")?.text(stop_text(report.cause))?;
    line.add_labelled(" unit ", u64::from(report.unit))?
        .text(" ")
}

/// A run that the target or the probe stopped.
pub fn stop_line_text(alloc: Global, report: &Report) -> Result<Line, OutOfMemory>
    ensures { IfOk result (λ line. line ≡ stop_line report.now) }
{
    let line = begin_stop(alloc, report)?;
    with_call(alloc, line, report.what)?.text("\n")
}

/// How many units were attempted, and how many entries of the journal were performed and confirmed.
pub fn attempted_text(alloc: Global, report: &Report) -> Result<Line, OutOfMemory>
    ensures { IfOk result (λ line. line ≡ attempted_line report.now) }
{
    let line = Line::begin(alloc, "attempted ")?.decimal(u64::from(report.attempted))?;
    let line = line.add_labelled(" accesses ", u64::from(report.accesses))?;
    line.add_labelled(" confirmed ", u64::from(report.confirmed))?
        .text("\n")
}

/// A run whose bench failed.
pub fn bench_fault_text(alloc: Global, issued: u32, confirmed: u32) -> Result<Line, OutOfMemory>
    ensures { IfOk result (λ line. line ≡ bench_fault_line issued confirmed) }
{
    let line = Line::begin(alloc, "end benchfault issued ")?.decimal(u64::from(issued))?;
    line.add_labelled(" confirmed ", u64::from(confirmed))?
        .text("\n")
}

/// Bytes as two lower-case hexadecimal digits each.
pub fn with_digits(alloc: Global, line: Line, bytes: &[u8]) -> Result<Line, OutOfMemory>
    ensures { IfOk result (λ l. l ≡ line ++ encode_lower bytes.now) }
{
    match hex::encode(alloc, bytes) {
        Ok(digits) => line.text(digits.as_str()),
        Err(_) => Err(OutOfMemory),
    }
}

/// A run that met a reply which its packet cannot have.
pub fn reply_bad_text(alloc: Global, sent: &[u8], got: &[u8]) -> Result<Line, OutOfMemory>
    ensures { IfOk result (λ line. line ≡ reply_bad_line sent.now got.now) }
{
    let line = Line::begin(alloc, "end replybad sent ")?;
    let line = with_digits(alloc, line, sent)?.text(" got ")?;
    with_digits(alloc, line, got)?.text("\n")
}
