//! A run of a job over a bench.
ghost use Rattle.std.specs.Prelude.{◌≡◌, ◌≤◌, Some, take};
ghost use Rattle.probe_core.specs.Bench.{BenchState, fresh, seen_bench};
ghost use Rattle.access_calls.specs.Endings.{ending_of};
ghost use Rattle.access_calls.specs.declared.ended.Ending.TheVariants as ends;
ghost use Rattle.control_flow.specs.Answers.{HasLines, RunHasSinkCause};
ghost use Rattle.access_calls.specs.Causes.{code_of_cause};
ghost use Rattle.access_calls.specs.declared.stop.Report.{Report};
ghost use Rattle.job_runs.specs.Ends.{HasBenchCause, HasGotResponse};
ghost use Rattle.access_calls.specs.Opening.{GoesOnTo, HasBadReply};
ghost use Rattle.job_runs.specs.Runs.{JobComesTo, MayRun, access_kind, config_of, job_close, known_after, task_in, task_with};
ghost use Rattle.task_runs.specs.Tasks.{ClosesAs, sequel_of};

use crate::kept::Kept;
use access_calls::{Ended, Ending, NotBegun, OverBench};
use dap_base::Sink;
use job_check::ValidRun;
use probe_core::{Bench, Config};
use sequels::Close;
use std::alloc::Global;
use target_machine::{Settings, Variables};
use task_runs::{Followed, run_task};

/// A run that has ended, and its bench.
#[derive(Drop)]
pub struct Ran<B> {
    /// How it ended.
    pub ended: Ended,
    /// How what follows the sequence came to its end: `Nothing` where nothing follows, and where the run ended otherwise than `Done`.
    pub close: Close,
    /// At `ReplyBad` the packet that the bad reply answers.
    pub sent: Kept,
    /// At `ReplyBad` the bad reply.
    pub got: Kept,
    /// The bench as the calls left it.
    pub bench: B,
}

// What the settings of a run say of the probe.
fn config_of(settings: &Settings) -> Config
    ensures { result ≡ config_of settings.now }
{
    Config {
        idle: settings.idle,
        retry: settings.retry,
    }
}

// A run whose access did not begin.
fn end_begin<B: Bench>(alloc: Global, refused: NotBegun<B>) -> Ran<B>
    requires sent { refused.sent_length ≤ 1024 }
    requires got { refused.got_length ≤ 1024 }
    ensures ending { result.ended.ending ≡ ending_of refused.stop }
    ensures close { result.close ≡ Close.Nothing }
    ensures sent { result.sent ≡ take refused.sent_length refused.sent }
    ensures got { result.got ≡ take refused.got_length refused.got }
    ensures bench { result.bench ≡ refused.bench }
{
    let NotBegun {
        bench,
        stop,
        sent,
        sent_length,
        got,
        got_length,
    } = refused;
    Ran {
        ended: Ended {
            ending: Ending::from(stop),
            units: 0,
            skipped: 0,
            variables: Variables::new(alloc),
        },
        close: Close::Nothing,
        sent: Kept::new(&sent[..sent_length as usize]),
        got: Kept::new(&got[..got_length as usize]),
        bench,
    }
}

/// Runs a sequence of a job over its bench, which was just loaded, with what follows it (`run_task` of `task_runs`). The access is begun,
/// and hands the bench back in the end. The lines of the run are written to the sink.
///
/// At `ReplyBad` the packet and the bad reply are answered. A run whose access did not begin ends with
/// `BenchFault` and no entries, with `ReplyBad`, or with `OutOfMemory`.
pub fn run_whole<B: Bench, K: Sink, A: OverBench<B>>(
    alloc: Global,
    run_of: &ValidRun,
    sequence: &str,
    followed: &Followed,
    bench: B,
    sink: &mut K,
) -> Ran<B>
    requires may { MayRun run_of.now (B.reported bench) }
    // What it comes to over an observable bench that was just loaded.
    ensures run { B.state bench ≡ Some (fresh run_of.now.job.bench)
        → (n : BenchState) × (B.state result.bench ≡ Some n)
        × JobComesTo (access_kind A.Access.journal A.Access.cost A.Access.is_sparing)
        (config_of run_of.now.job.settings) run_of.now.job.bench (task_with run_of.now sequence.now (sequel_of followed.now)) (K.written sink.old)
        (record { ended = result.ended; written = known_after (K.written sink.old) (K.written sink.new); bench = n }) }
    // And how what follows came to its end.
    ensures close { B.state bench ≡ Some (fresh run_of.now.job.bench) → result.ended.ending ≡ ends.Done
        → result.close ≡ job_close (config_of run_of.now.job.settings) run_of.now.job.bench
        (task_with run_of.now sequence.now (sequel_of followed.now)) (K.written sink.old) }
    // Over any bench it closes as what follows may.
    ensures closes { result.ended.ending ≡ ends.Done → ClosesAs followed.now result.close }
    ensures unclosed { (result.ended.ending ≡ ends.Done → ⊥) → result.close ≡ Close.Nothing }
    // What becomes of any bench.
    ensures goes { GoesOnTo (seen_bench B.reported B.state bench) (B.reported result.bench) (B.state result.bench) }
    ensures identity { B.identity result.bench ≡ B.identity bench }
    // Each fault has its cause.
    ensures bench { HasBenchCause result.ended.ending (B.reported bench).faults (B.reported result.bench).faults }
    ensures sink { RunHasSinkCause result.ended.ending (K.faults sink.old) (K.faults sink.new) }
    // Whole lines were written, except perhaps where the sink failed.
    ensures lines { HasLines result.ended.ending (K.written sink.old) (K.written sink.new) }
    ensures cut { (report : Report) → result.ended.ending ≡ ends.Cut report → HasGotResponse (code_of_cause report.cause) (B.reported bench) (B.reported result.bench) }
    ensures bad { result.ended.ending ≡ ends.ReplyBad → HasBadReply (B.reported bench) (B.reported result.bench) result.sent result.got }
{
    match A::begin(
        alloc,
        bench,
        config_of(&run_of.job.settings),
        run_of.job.bench.limits,
    ) {
        Ok(mut access) => {
            let settings = &run_of.job.settings;
            let task = run_task(
                alloc,
                &run_of.trees,
                sequence,
                settings,
                followed,
                &mut access,
                sink,
            );
            let sent = Kept::new(access.sent());
            let got = Kept::new(access.got());
            let bench = access.into_bench();
            Ran {
                ended: task.ended,
                close: task.close,
                sent,
                got,
                bench,
            }
        }
        Err(refused) => end_begin(alloc, refused),
    }
}

/// Runs a sequence of a job over its bench, which was just loaded: the access is begun, and hands the
/// bench back in the end. The lines of the run are written to the sink.
///
/// Nothing follows it. At `ReplyBad` the packet and the bad reply are answered. A run whose access did not begin ends with
/// `BenchFault` and no entries, with `ReplyBad`, or with `OutOfMemory`.
pub fn run_on<B: Bench, K: Sink, A: OverBench<B>>(
    alloc: Global,
    run_of: &ValidRun,
    sequence: &str,
    bench: B,
    sink: &mut K,
) -> Ran<B>
    requires may { MayRun run_of.now (B.reported bench) }
    // What it comes to over an observable bench that was just loaded.
    ensures run { B.state bench ≡ Some (fresh run_of.now.job.bench)
        → (n : BenchState) × (B.state result.bench ≡ Some n)
        × JobComesTo (access_kind A.Access.journal A.Access.cost A.Access.is_sparing)
        (config_of run_of.now.job.settings) run_of.now.job.bench (task_in run_of.now sequence.now) (K.written sink.old)
        (record { ended = result.ended; written = known_after (K.written sink.old) (K.written sink.new); bench = n }) }
    ensures close { result.close ≡ Close.Nothing }
    // What becomes of any bench.
    ensures goes { GoesOnTo (seen_bench B.reported B.state bench) (B.reported result.bench) (B.state result.bench) }
    ensures identity { B.identity result.bench ≡ B.identity bench }
    // Each fault has its cause.
    ensures bench { HasBenchCause result.ended.ending (B.reported bench).faults (B.reported result.bench).faults }
    ensures sink { RunHasSinkCause result.ended.ending (K.faults sink.old) (K.faults sink.new) }
    // Whole lines were written, except perhaps where the sink failed.
    ensures lines { HasLines result.ended.ending (K.written sink.old) (K.written sink.new) }
    ensures cut { (report : Report) → result.ended.ending ≡ ends.Cut report → HasGotResponse (code_of_cause report.cause) (B.reported bench) (B.reported result.bench) }
    ensures bad { result.ended.ending ≡ ends.ReplyBad → HasBadReply (B.reported bench) (B.reported result.bench) result.sent result.got }
{
    run_whole::<B, K, A>(alloc, run_of, sequence, &Followed::Nothing, bench, sink)
}
