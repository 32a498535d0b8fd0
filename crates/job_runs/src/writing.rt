//! What is written after a run.
ghost use Rattle.std.specs.Prelude.{◌≡◌, ◌≢◌, ◌++◌, ◌&&◌, Ok, false, IfErr, IfSome};
ghost use Rattle.dap_base.specs.Streams.{PutAppends};
ghost use Rattle.probe_core.specs.Bench.{IsAsBefore, seen_bench};
ghost use Rattle.report_lines.specs.Closes.{loaded_line};
ghost use Rattle.report_lines.specs.Endings.{ending_lines, shows_target};
ghost use Rattle.report_lines.specs.Frame.{EndsShowing, KeepsBench, PutsFirst};
ghost use Rattle.text_lines.specs.Causes.{NamesFault};
ghost use Rattle.job_runs.specs.Texts.{first_lines, has_report, run_text, trace_part, whole_text};
ghost use Rattle.report_lines.specs.Shown.{IsShownJob};

use crate::running::Ran;
use access_calls::Ending;
use dap_base::Sink;
use job_text::Job;
use probe_core::Bench;
use report_lines::{TextEnd, differs_text, full_text, loaded_text, report_text, trace_text};
use sequels::Close;
use std::alloc::Global;

// Whether a run that ended so has a report.
fn has_report(ending: Ending) -> bool
    ensures { result ≡ has_report ending }
{
    !matches!(ending, Ending::WriteFault | Ending::OutOfMemory)
}

// Whether the trace is shown after the report of a run that ended so.
fn shows_trace(is_traced: bool, ending: Ending) -> bool
    ensures { result ≡ (is_traced && shows_target ending) }
{
    is_traced && matches!(ending, Ending::Done | Ending::Halted(_) | Ending::Cut(_))
}

// Writes the trace, where it is shown.
#[tactic(auto, using(text_lines::proofs::PutLemmas::nothing, report_lines::proofs::FrameLemmas::frames))]
fn write_trace<K: Sink, B: Bench>(
    alloc: Global,
    is_shown: bool,
    bench: &mut B,
    sink: &mut K,
) -> Result<(), TextEnd>
    ensures text { IfSome (B.state bench.old) (λ n. PutAppends (K.written sink.old) (K.written sink.new) result (trace_part is_shown n.log)) }
    ensures unseen { is_shown ≡ false → (result ≡ Ok tt) × (K.written sink.new ≡ K.written sink.old) }
    ensures keeps { KeepsBench B.reported B.state B.identity bench.old bench.new }
    ensures ends { EndsShowing K.written K.faults result (B.reported bench.old) (B.reported bench.new) sink.old sink.new }
{
    if is_shown {
        trace_text(alloc, bench, sink)
    } else {
        Ok(())
    }
}

// Writes the report of a run that has one, and the trace after it.
#[tactic(auto, using(report_lines::proofs::FrameLemmas::frames))]
fn write_report<K: Sink, B: Bench>(
    alloc: Global,
    job: &Job,
    is_traced: bool,
    ran: &mut Ran<B>,
    sink: &mut K,
) -> Result<(), TextEnd>
    requires job { IsShownJob job.now }
    ensures text { IfSome (B.state ran.old.bench) (λ n. PutAppends (K.written sink.old) (K.written sink.new) result
        (run_text is_traced ran.old.ended ran.old.sent ran.old.got job.now n)) }
    ensures alone { shows_target ran.old.ended.ending ≡ false
        → PutAppends (K.written sink.old) (K.written sink.new) result (ending_lines ran.old.ended.ending ran.old.ended ran.old.sent ran.old.got) }
    ensures front { PutsFirst (ending_lines ran.old.ended.ending ran.old.ended ran.old.sent ran.old.got)
        (K.written sink.old) (K.written sink.new) result }
    ensures unasked { shows_target ran.old.ended.ending ≡ false → IfErr result (λ e. e ≢ TextEnd.BenchFault) }
    ensures ended { ran.new.ended ≡ ran.old.ended }
    ensures close { ran.new.close ≡ ran.old.close }
    ensures keeps { KeepsBench B.reported B.state B.identity ran.old.bench ran.new.bench }
    ensures ends { EndsShowing K.written K.faults result (B.reported ran.old.bench) (B.reported ran.new.bench) sink.old sink.new }
{
    let (sent, got) = (ran.sent.as_slice(), ran.got.as_slice());
    report_text(alloc, &ran.ended, sent, got, job, &mut ran.bench, sink)?;
    let is_shown = shows_trace(is_traced, ran.ended.ending);
    write_trace(alloc, is_shown, &mut ran.bench, sink)
}

/// Writes what comes after a run: its report, and after it the trace, where it is requested and the
/// report shows the target. The lines of the ending come first, over any bench. After `WriteFault` and
/// `OutOfMemory` nothing is written.
///
/// `WriteFault` where the sink failed, `BenchFault` where the bench failed, `OutOfMemory` where memory
/// is refused: a prefix of the text was then appended. The bench stays as it was, except its count of
/// faults at `BenchFault`.
#[tactic(auto, using(text_lines::proofs::PutLemmas::nothing, crate::proofs::TextLemmas::no_front))]
pub fn write_run<K: Sink, B: Bench>(
    alloc: Global,
    job: &Job,
    is_traced: bool,
    ran: &mut Ran<B>,
    sink: &mut K,
) -> Result<(), TextEnd>
    requires job { IsShownJob job.now }
    ensures text { IfSome (B.state ran.old.bench) (λ n. PutAppends (K.written sink.old) (K.written sink.new) result
        (run_text is_traced ran.old.ended ran.old.sent ran.old.got job.now n)) }
    ensures alone { shows_target ran.old.ended.ending ≡ false
        → PutAppends (K.written sink.old) (K.written sink.new) result (ending_lines ran.old.ended.ending ran.old.ended ran.old.sent ran.old.got) }
    ensures front { PutsFirst (ending_lines ran.old.ended.ending ran.old.ended ran.old.sent ran.old.got)
        (K.written sink.old) (K.written sink.new) result }
    ensures unasked { shows_target ran.old.ended.ending ≡ false → IfErr result (λ e. e ≢ TextEnd.BenchFault) }
    ensures silent { has_report ran.old.ended.ending ≡ false → result ≡ Ok tt }
    ensures ended { ran.new.ended ≡ ran.old.ended }
    ensures close { ran.new.close ≡ ran.old.close }
    ensures same { IsAsBefore (seen_bench B.reported B.state ran.old.bench) (seen_bench B.reported B.state ran.new.bench) }
    ensures identity { B.identity ran.new.bench ≡ B.identity ran.old.bench }
    ensures bench { NamesFault TextEnd.BenchFault (B.reported ran.old.bench).faults (B.reported ran.new.bench).faults result }
    ensures sink { NamesFault TextEnd.WriteFault (K.faults sink.old) (K.faults sink.new) result }
{
    if has_report(ran.ended.ending) {
        write_report(alloc, job, is_traced, ran, sink)
    } else {
        Ok(())
    }
}

// Writes the line of an image that was loaded, and then the report.
fn write_loaded<K: Sink, B: Bench>(
    alloc: Global,
    job: &Job,
    is_traced: bool,
    ran: &mut Ran<B>,
    sink: &mut K,
    bytes: u32,
    writes: u32,
) -> Result<(), TextEnd>
    requires job { IsShownJob job.now }
    ensures text { IfSome (B.state ran.old.bench) (λ n. PutAppends (K.written sink.old) (K.written sink.new) result
        (loaded_line bytes writes ++ run_text is_traced ran.old.ended ran.old.sent ran.old.got job.now n)) }
    ensures front { PutsFirst (loaded_line bytes writes ++ ending_lines ran.old.ended.ending ran.old.ended ran.old.sent ran.old.got)
        (K.written sink.old) (K.written sink.new) result }
    ensures ended { ran.new.ended ≡ ran.old.ended }
    ensures close { ran.new.close ≡ ran.old.close }
    ensures same { IsAsBefore (seen_bench B.reported B.state ran.old.bench) (seen_bench B.reported B.state ran.new.bench) }
    ensures identity { B.identity ran.new.bench ≡ B.identity ran.old.bench }
    ensures bench { NamesFault TextEnd.BenchFault (B.reported ran.old.bench).faults (B.reported ran.new.bench).faults result }
    ensures sink { NamesFault TextEnd.WriteFault (K.faults sink.old) (K.faults sink.new) result }
{
    loaded_text(alloc, bytes, writes, sink)?;
    write_run(alloc, job, is_traced, ran, sink)
}

/// Writes what comes after a run with what followed it, as `write_run` does. Where an image was loaded its line comes before the report. Where a byte of it
/// differs, or the ROM table is too large, the line of that and the target are written in its place.
///
/// The errors are those of `write_run`, and leave what they leave there.
pub fn write_whole<K: Sink, B: Bench>(
    alloc: Global,
    job: &Job,
    is_traced: bool,
    ran: &mut Ran<B>,
    sink: &mut K,
) -> Result<(), TextEnd>
    requires job { IsShownJob job.now }
    ensures text { IfSome (B.state ran.old.bench) (λ n. PutAppends (K.written sink.old) (K.written sink.new) result
        (whole_text is_traced ran.old.ended ran.old.close ran.old.sent ran.old.got job.now n)) }
    ensures alone { ran.old.close ≡ Close.Nothing → shows_target ran.old.ended.ending ≡ false
        → PutAppends (K.written sink.old) (K.written sink.new) result (ending_lines ran.old.ended.ending ran.old.ended ran.old.sent ran.old.got) }
    ensures front { PutsFirst (first_lines ran.old.ended ran.old.close ran.old.sent ran.old.got)
        (K.written sink.old) (K.written sink.new) result }
    ensures unasked { ran.old.close ≡ Close.Nothing → shows_target ran.old.ended.ending ≡ false → IfErr result (λ e. e ≢ TextEnd.BenchFault) }
    ensures silent { ran.old.close ≡ Close.Nothing → has_report ran.old.ended.ending ≡ false → result ≡ Ok tt }
    ensures ended { ran.new.ended ≡ ran.old.ended }
    ensures close { ran.new.close ≡ ran.old.close }
    ensures same { IsAsBefore (seen_bench B.reported B.state ran.old.bench) (seen_bench B.reported B.state ran.new.bench) }
    ensures identity { B.identity ran.new.bench ≡ B.identity ran.old.bench }
    ensures bench { NamesFault TextEnd.BenchFault (B.reported ran.old.bench).faults (B.reported ran.new.bench).faults result }
    ensures sink { NamesFault TextEnd.WriteFault (K.faults sink.old) (K.faults sink.new) result }
{
    match ran.close {
        Close::Nothing | Close::Scanned => write_run(alloc, job, is_traced, ran, sink),
        Close::Loaded { bytes, writes } => {
            write_loaded(alloc, job, is_traced, ran, sink, bytes, writes)
        }
        Close::Differs {
            address,
            wanted,
            found,
        } => differs_text(alloc, address, wanted, found, job, &mut ran.bench, sink),
        Close::Full => full_text(alloc, job, &mut ran.bench, sink),
    }
}
