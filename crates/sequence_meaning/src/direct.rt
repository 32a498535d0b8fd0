//! The direct runner.
ghost use Rattle.std.specs.Prelude.{◌≡◌, ◌<◌, ℕ, Bool, IfOk, List, None, Option, map};
ghost use Rattle.target_calls.specs.World.{start_world};
ghost use Rattle.function_table.specs.Variables.{names_of_predefined};
ghost use Rattle.target_machine.specs.State.{TargetState};
ghost use Rattle.seq_check.specs.Answers.{checked_trees};
ghost use Rattle.sequence_rules.specs.Direct.{Now};
ghost use Rattle.sequence_rules.specs.Laws.{IsMadeIn};
ghost use Rattle.sequence_rules.specs.Machine.{Out, end_state};
ghost use Rattle.sequence_rules.specs.Runs.{outcome, outcome_of, program_of, units_of};
ghost use Rattle.sequence_meaning.specs.Answers.{AnswersDirect, AnswersOutcome, IsDirectCaused, IsRecordedCaused, Leaves, LeavesSome, Records};
ghost use Rattle.sequence_rules.specs.Known.{Knows, known_part};
ghost use Rattle.sequence_meaning.specs.Held.{IsCaused, IsMadeByCalls, MeansDirect, state_of};

use crate::end::{DirectEnd, Stopped};
use crate::ended::{Direct, Recorded};
use crate::held::DirectHeld;
use crate::runner::DirectRunner;
use crate::variables::copy_variables;
use dap_base::{OutOfMemory, Sink};
use seq_check::Checked;
use sequence_rules::{add_declared, predefined_globals};
use std::alloc::Global;
use target_machine::{Settings, Target};

// How a run ended, with the variables of that moment where it is done or halted.
fn ending_of(
    alloc: Global,
    ended: Result<(), Stopped>,
    held: &DirectHeld,
) -> Result<Direct, OutOfMemory>
    ensures answer { (target : TargetState) (written : Option (List ℕ)) (out : Out ℕ Now (Unit {0}))
        → MeansDirect held.now.end ended (state_of held.now target written) out → (end_state out).units ≡ units_of (outcome_of out)
        → AnswersDirect (outcome_of out) result target written }
    ensures records { (target : TargetState) (written : Option (List ℕ)) (out : Out ℕ Now (Unit {0}))
        → MeansDirect held.now.end ended (state_of held.now target written) out → (end_state out).units ≡ units_of (outcome_of out)
        → IfOk result (λ ending. Records (outcome_of out) ending held.now.calls held.now.skipped target written) }
    ensures cause { (before now : ℕ) → IsCaused held.now.end ended before now → IsDirectCaused result before now }
{
    let Err(Stopped) = ended else {
        return Ok(Direct::Done(copy_variables(alloc, held.globals.all())?));
    };
    match held.end {
        DirectEnd::Halted(cause) => Ok(Direct::Halted(
            cause,
            copy_variables(alloc, held.globals.all())?,
        )),
        DirectEnd::Faulted(what) => Ok(Direct::Faulted {
            unit: held.units,
            what,
        }),
        DirectEnd::WriteFault => Ok(Direct::WriteFault),
        DirectEnd::OutOfMemory => Err(OutOfMemory),
    }
}

// What is answered at the end of a run.
fn record_run(
    alloc: Global,
    ended: Result<(), Stopped>,
    held: DirectHeld,
) -> Result<Recorded, OutOfMemory>
    ensures answer { (target : TargetState) (written : Option (List ℕ)) (out : Out ℕ Now (Unit {0}))
        → MeansDirect held.end ended (state_of held target written) out → (end_state out).units ≡ units_of (outcome_of out)
        → AnswersOutcome (outcome_of out) result target written }
    ensures cause { (before now : ℕ) → IsCaused held.end ended before now → IsRecordedCaused result before now }
    ensures part { (start target : TargetState) (written : Option (List ℕ)) (out : Out ℕ Now (Unit {0}))
        → MeansDirect held.end ended (state_of held target written) out → IsMadeIn (start_world start None) (outcome_of out)
        → IsMadeByCalls (start_world start None) held target → Leaves start (outcome_of out) result target written }
{
    let ending = ending_of(alloc, ended, &held)?;
    Ok(Recorded {
        ending,
        calls: held.calls,
        skipped: held.skipped,
    })
}

/// Runs the sequence `start` of a checked set over a target, each access alone and at once, and records what was made: a plain
/// and slow runner, for tests. It starts with the starting values of the settings and with the debug variables; where the set
/// does not have the sequence, there are no steps.
///
/// `WriteFault` comes only where the sink failed, and `OutOfMemory` where memory is refused. With both, the calls so far and what was
/// written come first in those of the run, and the target is as these calls leave it. With `WriteFault` the last line may be a part.
pub fn run_recorded<K: Sink>(
    alloc: Global,
    checked: &Checked,
    start: &str,
    settings: &Settings,
    target: &mut Target,
    sink: &mut K,
) -> Result<Recorded, OutOfMemory>
    requires turns { 0 < settings.now.turn_us }
    requires names { map (λ variable. variable.name) settings.now.start ≡ names_of_predefined }
    // What is answered, the target and the lines are those of the outcome: Done, Halted or Faulted, the variables, the calls and the skips.
    ensures answer { (known : Bool) → Knows known (K.written sink.old)
        → AnswersOutcome
        (outcome (program_of (checked_trees checked.now) start.now settings.now) target.old (known_part known (K.written sink.old)))
        result target.new (known_part known (K.written sink.new)) }
    // `WriteFault` comes only where the sink's count of faults rose, or is at its last value, and any other answer leaves the count.
    ensures cause { IsRecordedCaused result (K.faults sink.old) (K.faults sink.new) }
    // However it ends, a first part of the run was made and written, and the target is as these calls leave it.
    ensures part { (known : Bool) → Knows known (K.written sink.old)
        → Leaves target.old
        (outcome (program_of (checked_trees checked.now) start.now settings.now) target.old (known_part known (K.written sink.old)))
        result target.new (known_part known (K.written sink.new)) }
{
    let mut globals = predefined_globals(alloc, settings.start.as_slice())?;
    add_declared(&mut globals, alloc, checked.debugvars().as_slice())?;
    let mut held = DirectHeld::new(alloc, globals);
    let runner = DirectRunner {
        alloc,
        set: checked,
        turn_us: settings.turn_us,
    };
    let ended = runner.run_all(start, &mut held, target, sink);
    record_run(alloc, ended, held)
}

/// Runs the sequence `start` of a checked set over a target, as [`run_recorded`] does, and answers how the run ended.
pub fn run_direct<K: Sink>(
    alloc: Global,
    checked: &Checked,
    start: &str,
    settings: &Settings,
    target: &mut Target,
    sink: &mut K,
) -> Result<Direct, OutOfMemory>
    requires turns { 0 < settings.now.turn_us }
    requires names { map (λ variable. variable.name) settings.now.start ≡ names_of_predefined }
    // How it ended, the target and the lines are those of the outcome.
    ensures answer { (known : Bool) → Knows known (K.written sink.old)
        → AnswersDirect
        (outcome (program_of (checked_trees checked.now) start.now settings.now) target.old (known_part known (K.written sink.old)))
        result target.new (known_part known (K.written sink.new)) }
    // `WriteFault` comes only where the sink's count of faults rose, or is at its last value, and any other answer leaves the count.
    ensures cause { IsDirectCaused result (K.faults sink.old) (K.faults sink.new) }
    // However it ends, a first part of the run was made and written, and the target is as its calls leave it.
    ensures part { (known : Bool) → Knows known (K.written sink.old)
        → LeavesSome target.old
        (outcome (program_of (checked_trees checked.now) start.now settings.now) target.old (known_part known (K.written sink.old)))
        target.new (known_part known (K.written sink.new)) }
{
    let run = run_recorded(alloc, checked, start, settings, target, sink)?;
    Ok(run.ending)
}
