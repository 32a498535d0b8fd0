//! Runs over an access.
ghost use Rattle.std.specs.Prelude.{◌≡◌, ◌<◌, ℕ, Bool, Option, None, length, map};
ghost use Rattle.function_table.specs.Variables.{names_of_predefined};
ghost use Rattle.probe_core.specs.Bench.{BenchState};
ghost use Rattle.target_calls.specs.NeedPoints.{nothing_asked};
ghost use Rattle.target_calls.specs.World.{stop};
ghost use Rattle.access_calls.specs.Left.{IsLeft, answered_by};
ghost use Rattle.access_calls.specs.Reported.{world_from};
ghost use Rattle.access_calls.specs.declared.ended.Ending.TheVariants as ends;
ghost use Rattle.access_calls.specs.Keeps.{KeepsAccess};
ghost use Rattle.seq_check.specs.Answers.{checked_trees};
ghost use Rattle.sequence_rules.specs.Runs.{late_meaning, meaning, outcome_of, program_of};
ghost use Rattle.sequence_rules.specs.Known.{Knows, known_part};
ghost use Rattle.control_flow.specs.Answers.{EndBy, HasLines, HasNeeds, IsPartOfOutcome, RunEndsAs, RunHasSinkCause, ran};
ghost use Rattle.control_flow.specs.Closing.{ComesToEnd};

use crate::closing::{ended_early, ended_whole, stop_of};
use crate::runner::Runner;
use crate::start::held_at_start;
use access_calls::{Access, Ended, Ending};
use dap_base::Sink;
use function_calls::End;
use seq_check::Checked;
use std::alloc::Global;
use target_machine::Settings;

/// Runs the sequence `start` of a checked set over an access that has no end and of which nothing was asked. It starts with the
/// starting values of the settings and with the debug variables; where the set does not have the sequence, there are no steps.
///
/// A value that may not have come is looked up only where it is used. An operator, an argument and a condition use it; an assignment, a
/// branch of `?:` and parentheses do not. A line is written only after all earlier units were confirmed. Before the run is `Done` or
/// `Halted` all units are settled and confirmed, so that a fault of an earlier unit comes first. Each line is written whole; only where the
/// sink failed a part of one may be written.
///
/// `Cut`, `BenchFault` and `ReplyBad` are the end of the access. `WriteFault` comes only where the sink failed, and `OutOfMemory`
/// where memory is refused; after both nothing more was sent, and the access has no end.
#[tactic(auto, using(crate::proofs::EndRules::ending))]
pub fn run<A: Access, K: Sink>(
    alloc: Global,
    checked: &Checked,
    start: &str,
    settings: &Settings,
    access: &mut A,
    sink: &mut K,
) -> Ended
    requires turns { 0 < settings.now.turn_us }
    requires names { map (λ variable. variable.name) settings.now.start ≡ names_of_predefined }
    requires open { (A.reported access.old).end ≡ None }
    requires fresh { (A.reported access.old).asks ≡ nothing_asked }
    // How it ended, what is answered, and the lines are those of what the program means in the world that is left.
    ensures answer { (m : BenchState) (known : Bool) → A.begun access.old m → Knows known (K.written sink.old)
        → RunEndsAs result.ending (A.reported access.new).lines
        (outcome_of (meaning (world_from m (answered_by (A.reported access.new))) (program_of (checked_trees checked.now) start.now settings.now)
        (known_part known (K.written sink.old))))
        (ran result (A.reported access.new).asks (known_part known (K.written sink.new))) }
    // Where it is neither done nor halted, what is written comes first in the lines of each world that is left. All calls before a line
    // had come when it was written.
    ensures part { (m : BenchState) (answered : Option ℕ) (known : Bool) → A.begun access.old m → IsLeft (A.reported access.new) answered
        → Knows known (K.written sink.old)
        → (ComesToEnd result.ending → ⊥)
        → IsPartOfOutcome
        (outcome_of (meaning (world_from m answered) (program_of (checked_trees checked.now) start.now settings.now) (known_part known (K.written sink.old))))
        (ran result (A.reported access.new).asks (known_part known (K.written sink.new))) }
    // What was asked has the need points of the meaning with results that come later, and one for the end.
    ensures needs { (m : BenchState) (known : Bool) → A.begun access.old m → Knows known (K.written sink.old)
        → HasNeeds result.ending (A.reported access.new).asks
        (late_meaning A.cost (world_from m (answered_by (A.reported access.new))) (program_of (checked_trees checked.now) start.now settings.now)
        (known_part known (K.written sink.old))) }
    // Where it is done, no call stops, in each world that is left.
    ensures whole { (m : BenchState) (answered : Option ℕ) → A.begun access.old m → IsLeft (A.reported access.new) answered
        → result.ending ≡ ends.Done → stop (world_from m answered) (A.reported access.new).asks.calls ≡ None }
    // And one call was asked for each of its units.
    ensures counted { result.ending ≡ ends.Done → result.units ≡ length (A.reported access.new).asks.calls }
    ensures end { EndBy result.ending (A.reported access.new).end }
    ensures skipped { result.skipped ≡ (A.reported access.new).skipped }
    ensures lines { HasLines result.ending (K.written sink.old) (K.written sink.new) }
    ensures cause { RunHasSinkCause result.ending (K.faults sink.old) (K.faults sink.new) }
    ensures keeps { KeepsAccess A.begun A.reported A.identity access.old access.new }
{
    let Ok(mut held) = held_at_start(alloc, checked, settings) else {
        return ended_early(alloc, Ending::OutOfMemory, 0, access.skipped());
    };
    let runner = Runner {
        alloc,
        set: checked,
        turn_us: settings.turn_us,
    };
    match runner.run_all(start, &mut held, access, sink) {
        Ok(()) => ended_whole(alloc, Ending::Done, &held, access),
        Err(End::Halted(cause)) => ended_whole(alloc, Ending::Halted(cause), &held, access),
        Err(End::Stopped) => {
            let stop = stop_of(access);
            ended_early(alloc, Ending::from(stop), held.units, access.skipped())
        }
        Err(End::OutOfMemory) => ended_early(
            alloc,
            Ending::OutOfMemory,
            held.units,
            access.skipped(),
        ),
        Err(End::WriteFault) => ended_early(
            alloc,
            Ending::WriteFault,
            held.units,
            access.skipped(),
        ),
    }
}
