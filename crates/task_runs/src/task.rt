//! A run over an access, with what follows it.
ghost use Rattle.std.specs.Prelude.{◌≡◌, ◌+◌, ◌^◌, ◌<◌, ℕ, Bool, true, Option, None, IfOk, is_none};
ghost use Rattle.probe_core.specs.Bench.{BenchState};
ghost use Rattle.target_calls.specs.NeedPoints.{nothing_asked};
ghost use Rattle.access_calls.specs.Left.{IsLeft, answered_by};
ghost use Rattle.access_calls.specs.Reported.{world_from};
ghost use Rattle.access_calls.specs.declared.ended.Ending.TheVariants as ends;
ghost use Rattle.access_calls.specs.Keeps.{KeepsAccess};
ghost use Rattle.seq_check.specs.Answers.{checked_trees};
ghost use Rattle.sequence_rules.specs.Known.{Knows, known_part};
ghost use Rattle.sequence_rules.specs.Runs.{late_meaning, program_of};
ghost use Rattle.followed_runs.specs.Followed.{close_in, outcome_in_world};
ghost use Rattle.control_flow.specs.Answers.{EndBy, HasLines, HasNeeds, IsPartOfOutcome, RunEndsAs, RunHasSinkCause, ran};
ghost use Rattle.control_flow.specs.Closing.{ComesToEnd};
ghost use Rattle.sequels.specs.declared.close.Close.TheVariants.{Nothing};
ghost use Rattle.task_runs.specs.Following.{TaskIsClosed, ending_by};
ghost use Rattle.task_runs.specs.Tasks.{AreTaskSettings, ClosesAs, goes_on, sequel_of, task_of};

use crate::followed::Followed;
use crate::following::{Closed, Unclosed, follow};
use access_calls::{Access, Ended, Ending};
use control_flow::run;
use dap_base::Sink;
use seq_check::Checked;
use sequels::Close;
use std::alloc::Global;
use target_machine::{Settings, Variables};

/// A run that has ended, and how what follows it came to its end.
#[derive(Debug, Drop)]
pub struct TaskEnded {
    /// How it ended: `Done` where the sequence is done and what follows came to its end. The units are those of both.
    pub ended: Ended,
    /// How what follows came to its end: `Nothing` where nothing follows, and where the run ended otherwise than `Done`.
    pub close: Close,
}

// Whether something follows a run that ended so.
fn goes_on(followed: &Followed, ending: Ending) -> bool
    ensures { result ≡ goes_on followed.now ending }
{
    match followed {
        Followed::Nothing => false,
        Followed::Load { .. } | Followed::Scan { .. } => matches!(ending, Ending::Done),
    }
}

// The ending of a run whose sequel did not come to its end.
fn ending_by(unclosed: Unclosed) -> Ending
    ensures { result ≡ ending_by unclosed }
{
    match unclosed {
        Unclosed::WriteFault => Ending::WriteFault,
        Unclosed::Stopped(stop) => Ending::from(stop),
    }
}

// A run that was done, with what followed it.
fn close(alloc: Global, ended: Ended, closed: Result<Closed, Unclosed>, skipped: u32) -> TaskEnded
    requires few { IfOk closed (λ x. ended.units + x.units < 2 ^ 32) }
    ensures { TaskIsClosed closed ended skipped result }
{
    match closed {
        Ok(Closed { close, units }) => TaskEnded {
            ended: Ended {
                ending: ended.ending,
                units: ended.units + units,
                skipped,
                variables: ended.variables,
            },
            close,
        },
        Err(unclosed) => TaskEnded {
            ended: Ended {
                ending: ending_by(unclosed),
                units: ended.units,
                skipped,
                variables: Variables::new(alloc),
            },
            close: Close::Nothing,
        },
    }
}

/// Runs the sequence `start` of a checked set, as `run` of `control_flow` does, over an access that has no end and of which nothing was asked.
/// Where it is `Done`, what follows goes on over the same access and the same sink, after the settling of the last unit.
///
/// `Nothing`: it is the run. `Load`: the image is written and read back, as `load` of `image_load` does; it is `Done` also where a byte differs.
/// `Scan`: the components are listed, as `scan` of `rom_scan` does; it is `Done` also where there are too many.
///
/// `Cut`, `BenchFault` and `ReplyBad` are the end of the access, in the sequence or in what follows. `WriteFault` comes only where the sink failed, and
/// `OutOfMemory` where memory is refused, or where something follows a run of more than 1,000,000 units. After both nothing more was sent, and the access
/// has no end.
pub fn run_task<A: Access, K: Sink>(
    alloc: Global,
    checked: &Checked,
    start: &str,
    settings: &Settings,
    followed: &Followed,
    access: &mut A,
    sink: &mut K,
) -> TaskEnded
    requires settings { AreTaskSettings settings.now }
    requires open { (A.reported access.old).end ≡ None }
    requires fresh { (A.reported access.old).asks ≡ nothing_asked }
    // How it ended, what is answered, and the lines are those of what the task comes to in the world that is left.
    ensures answer { (m : BenchState) (known : Bool) → A.begun access.old m → Knows known (K.written sink.old)
        → RunEndsAs result.ended.ending (A.reported access.new).lines
        (outcome_in_world (world_from m (answered_by (A.reported access.new))) (task_of (program_of (checked_trees checked.now) start.now settings.now) followed.now)
        (known_part known (K.written sink.old)))
        (ran result.ended (A.reported access.new).asks (known_part known (K.written sink.new))) }
    // Where it is neither done nor halted, what is written comes first in the lines of each world that is left. All calls before a line
    // had come when it was written.
    ensures part { (m : BenchState) (answered : Option ℕ) (known : Bool) → A.begun access.old m → IsLeft (A.reported access.new) answered
        → Knows known (K.written sink.old)
        → (ComesToEnd result.ended.ending → ⊥)
        → IsPartOfOutcome (outcome_in_world (world_from m answered)
        (task_of (program_of (checked_trees checked.now) start.now settings.now) followed.now) (known_part known (K.written sink.old)))
        (ran result.ended (A.reported access.new).asks (known_part known (K.written sink.new))) }
    // So is how what follows came to its end.
    ensures close { (m : BenchState) (known : Bool) → A.begun access.old m → Knows known (K.written sink.old) → result.ended.ending ≡ ends.Done
        → result.close ≡ close_in (world_from m (answered_by (A.reported access.new)))
        (task_of (program_of (checked_trees checked.now) start.now settings.now) followed.now)
        (known_part known (K.written sink.old)) }
    // Over any bench it closes as what follows may.
    ensures closes { result.ended.ending ≡ ends.Done → ClosesAs followed.now result.close }
    ensures unclosed { (result.ended.ending ≡ ends.Done → ⊥) → result.close ≡ Nothing }
    // Where nothing follows, what was asked has the need points of the meaning with results that come later, and one for the end.
    ensures needs { (m : BenchState) (known : Bool) → A.begun access.old m → Knows known (K.written sink.old) → is_none (sequel_of followed.now) ≡ true
        → HasNeeds result.ended.ending (A.reported access.new).asks
        (late_meaning A.cost (world_from m (answered_by (A.reported access.new))) (program_of (checked_trees checked.now) start.now settings.now)
        (known_part known (K.written sink.old))) }
    ensures end { EndBy result.ended.ending (A.reported access.new).end }
    ensures skipped { result.ended.skipped ≡ (A.reported access.new).skipped }
    ensures lines { HasLines result.ended.ending (K.written sink.old) (K.written sink.new) }
    ensures cause { RunHasSinkCause result.ended.ending (K.faults sink.old) (K.faults sink.new) }
    ensures keeps { KeepsAccess A.begun A.reported A.identity access.old access.new }
{
    let ended = run(alloc, checked, start, settings, access, sink);
    if goes_on(followed, ended.ending) {
        let closed = follow(alloc, followed, ended.units, access, sink);
        close(alloc, ended, closed, access.skipped())
    } else {
        TaskEnded {
            ended,
            close: Close::Nothing,
        }
    }
}
