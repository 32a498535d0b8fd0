//! The text of what followed a sequence: a load, or a scan.
ghost use Rattle.std.specs.Prelude.{◌≡◌, IfOk};
ghost use Rattle.probe_core.specs.Probe.{target_of};
ghost use Rattle.report_lines.specs.Closes.{differs_line, differs_lines, full_line, full_lines, loaded_line};
ghost use Rattle.report_lines.specs.Frame.{PutsFirst, PutsLines, PutsShown};
ghost use Rattle.report_lines.specs.Target.{target_lines};
ghost use Rattle.report_lines.specs.Shown.{IsShownJob};

use crate::put::{TextEnd, put, put_line};
use crate::target::write_target;
use dap_base::{OutOfMemory, Sink};
use job_text::Job;
use probe_core::Bench;
use std::alloc::Global;
use text_lines::Line;

/// Puts the lines of the target of a bench, each by one `put`, as a report has them. They are the debug port, the access ports of the job
/// in rising order, the lines of the probe, and the watched words. Each part is requested directly before its line. A part that the bench
/// does not show has no line.
///
/// `WriteFault` where the sink failed, `BenchFault` where the bench failed, `OutOfMemory` where memory is refused: a prefix of the lines
/// was then appended. The bench stays as it was, except its count of faults at `BenchFault`.
pub fn target_lines<K: Sink, B: Bench>(
    alloc: Global,
    job: &Job,
    bench: &mut B,
    sink: &mut K,
) -> Result<(), TextEnd>
    requires shown { IsShownJob job.now }
    ensures puts { PutsShown (λ m. target_lines (target_of m.probe) job.now.bench.target.aps job.now.watch) result
        B.reported B.state B.identity K.written K.faults bench.old bench.new sink.old sink.new }
{
    write_target(
        alloc,
        job.bench.target.aps.as_slice(),
        job.watch.as_slice(),
        bench,
        sink,
    )
}

// How many bytes and writes a load took.
fn loaded_line(alloc: Global, bytes: u32, writes: u32) -> Result<Line, OutOfMemory>
    ensures { IfOk result (λ line. line ≡ loaded_line bytes writes) }
{
    let line = Line::begin(alloc, "loaded ")?.decimal(u64::from(bytes))?;
    line.add_labelled(" bytes ", u64::from(writes))?
        .text(" writes\n")
}

/// Puts the line of an image that was written and read back as it was written, by one `put`: how many bytes it has, and how many writes
/// they took.
///
/// `WriteFault` where the sink failed, `OutOfMemory` where memory is refused: a prefix of the line was then appended. Never
/// `BenchFault`.
pub fn loaded_text<K: Sink>(
    alloc: Global,
    bytes: u32,
    writes: u32,
    sink: &mut K,
) -> Result<(), TextEnd>
    ensures puts { PutsLines (loaded_line bytes writes) result K.written K.faults sink.old sink.new }
{
    put_line(loaded_line(alloc, bytes, writes), sink)
}

// Which byte differs, what it should be, and what was found.
fn differs_line(alloc: Global, address: u32, wanted: u8, found: u8) -> Result<Line, OutOfMemory>
    ensures { IfOk result (λ line. line ≡ differs_line address wanted found) }
{
    let line = Line::begin(alloc, "end differs ")?.hex8(address)?;
    let line = line.text(" wanted ")?.hex2(wanted)?;
    line.text(" found ")?.hex2(found)?.text("\n")
}

/// Puts the text of an image that was read back as another one, each line by one `put`. First comes the first byte that differs, with its
/// address, the byte of the image and the byte that was read. Then comes the target of the bench, as `target_lines` has it. Its line comes
/// first, over any bench.
///
/// `WriteFault` where the sink failed, `BenchFault` where the bench failed, `OutOfMemory` where memory is refused: a prefix of the text
/// was then appended. The bench stays as it was, except its count of faults at `BenchFault`.
pub fn differs_text<K: Sink, B: Bench>(
    alloc: Global,
    address: u32,
    wanted: u8,
    found: u8,
    job: &Job,
    bench: &mut B,
    sink: &mut K,
) -> Result<(), TextEnd>
    requires shown { IsShownJob job.now }
    ensures puts { PutsShown (λ m. differs_lines address wanted found job.now (target_of m.probe)) result
        B.reported B.state B.identity K.written K.faults bench.old bench.new sink.old sink.new }
    ensures front { PutsFirst (differs_line address wanted found) (K.written sink.old) (K.written sink.new) result }
{
    put_line(differs_line(alloc, address, wanted, found), sink)?;
    target_lines(alloc, job, bench, sink)
}

/// Puts the text of a scan that met more components than are listed, each line by one `put`: `end full`, and then the target of the
/// bench, as `target_lines` has it. Its line comes first, over any bench.
///
/// `WriteFault` where the sink failed, `BenchFault` where the bench failed, `OutOfMemory` where memory is refused: a prefix of the text
/// was then appended. The bench stays as it was, except its count of faults at `BenchFault`.
pub fn full_text<K: Sink, B: Bench>(
    alloc: Global,
    job: &Job,
    bench: &mut B,
    sink: &mut K,
) -> Result<(), TextEnd>
    requires shown { IsShownJob job.now }
    ensures puts { PutsShown (λ m. full_lines job.now (target_of m.probe)) result
        B.reported B.state B.identity K.written K.faults bench.old bench.new sink.old sink.new }
    ensures front { PutsFirst full_line (K.written sink.old) (K.written sink.new) result }
{
    put(b"end full\n", sink)?;
    target_lines(alloc, job, bench, sink)
}
