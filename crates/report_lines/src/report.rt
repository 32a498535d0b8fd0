//! The report of a run.
#![tactic(auto, using(crate::proofs::FrameLemmas::frames))]

ghost use Rattle.std.specs.Prelude.{◌≡◌, ◌≢◌, Ok, false, IfErr};
ghost use Rattle.std.specs.List.{All};
ghost use Rattle.dap_base.specs.Streams.{PutAppends};
ghost use Rattle.probe_core.specs.Probe.{target_of};
ghost use Rattle.report_lines.specs.Endings.{ending_lines, shows_target};
ghost use Rattle.report_lines.specs.Frame.{PutsFirst, PutsShown};
ghost use Rattle.report_lines.specs.Report.{report, target_part};
ghost use Rattle.report_lines.specs.Target.{IsLow};
ghost use Rattle.report_lines.specs.Shown.{IsShownJob};

use crate::head::write_ending;
use crate::put::TextEnd;
use crate::target::write_target;
use access_calls::{Ended, Ending};
use dap_base::Sink;
use job_text::Job;
use probe_core::Bench;
use std::alloc::Global;

// Whether the target is shown after a run that ended so.
fn shows_target(ending: Ending) -> bool
    ensures { result ≡ shows_target ending }
{
    matches!(ending, Ending::Done | Ending::Halted(_) | Ending::Cut(_))
}

// Puts the lines of the target, where it is shown.
#[tactic(auto, using(text_lines::proofs::PutLemmas::nothing, crate::proofs::FrameLemmas::frames))]
fn write_shown<K: Sink, B: Bench>(
    alloc: Global,
    shows: bool,
    job: &Job,
    bench: &mut B,
    sink: &mut K,
) -> Result<(), TextEnd>
    requires { All IsLow job.now.watch }
    ensures puts { PutsShown (λ m. target_part shows job.now (target_of m.probe)) result
        B.reported B.state B.identity K.written K.faults bench.old bench.new sink.old sink.new }
    ensures unseen { shows ≡ false → (result ≡ Ok tt) × (K.written sink.new ≡ K.written sink.old) }
{
    if shows {
        let target = &job.bench.target;
        write_target(
            alloc,
            target.aps.as_slice(),
            job.watch.as_slice(),
            bench,
            sink,
        )
    } else {
        Ok(())
    }
}

/// Puts the report of a run of a job, each line by one `put`. It says how the run ended. Where it came to its end, was halted, or was
/// stopped by the target or the probe, it has what the bench shows of its target. `sent` and `got` are the packet and the reply that ended
/// it, and count after `ReplyBad` alone. Each part of the target is requested directly before its line. The parts are the debug port, the
/// access ports of the job in rising order, the lines of the probe, and the watched words in their order, whose addresses are below 2^64. A
/// part that the bench does not show has no line. After `WriteFault` and `OutOfMemory` nothing is put.
///
/// `WriteFault` where the sink failed, `BenchFault` where the bench failed, `OutOfMemory` where memory
/// is refused: a prefix of the report was then appended. The bench stays as it was, except its count
/// of faults at `BenchFault`.
pub fn report_text<K: Sink, B: Bench>(
    alloc: Global,
    ended: &Ended,
    sent: &[u8],
    got: &[u8],
    job: &Job,
    bench: &mut B,
    sink: &mut K,
) -> Result<(), TextEnd>
    requires shown { IsShownJob job.now }
    ensures puts { PutsShown (λ m. report ended.now sent.now got.now job.now (target_of m.probe)) result
        B.reported B.state B.identity K.written K.faults bench.old bench.new sink.old sink.new }
    ensures alone { shows_target ended.now.ending ≡ false
        → PutAppends (K.written sink.old) (K.written sink.new) result (ending_lines ended.now.ending ended.now sent.now got.now) }
    ensures front { PutsFirst (ending_lines ended.now.ending ended.now sent.now got.now) (K.written sink.old) (K.written sink.new) result }
    ensures unasked { shows_target ended.now.ending ≡ false → IfErr result (λ e. e ≢ TextEnd.BenchFault) }
{
    write_ending(alloc, ended, sent, got, sink)?;
    write_shown(alloc, shows_target(ended.ending), job, bench, sink)
}
