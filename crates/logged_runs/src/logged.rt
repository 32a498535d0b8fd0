//! The logged runner.
ghost use Rattle.std.specs.Prelude.{◌≡◌, ◌<◌, ℕ, List, IfOk, None, map};
ghost use Rattle.function_table.specs.Variables.{names_of_predefined};
ghost use Rattle.logged_calls.specs.Held.{Means, Unless};
ghost use Rattle.run_events.specs.Events.{Event, places_reached};
ghost use Rattle.run_events.specs.OfRuns.{events_in};
ghost use Rattle.seq_check.specs.Answers.{checked_trees};
ghost use Rattle.sequence_rules.specs.Machine.{end_state};
ghost use Rattle.sequence_rules.specs.Runs.{Program, meaning, outcome, program_of, units_of};
ghost use Rattle.target_calls.specs.World.{start_world};
ghost use Rattle.target_machine.specs.State.{TargetState};
ghost use Rattle.logged_runs.specs.Answers.{IsEndOf, IsLoggedRun, IsSeenOfRun, end_place};
ghost use Rattle.logged_runs.specs.Seen.{HasSeenNothing, NotesByTurns, SeenSoFar};
ghost use Rattle.logged_runs.specs.Walk.{now, seen_so_far};

use crate::places::Places;
use crate::runner::LoggedRunner;
use crate::walked::Walked;
use dap_base::OutOfMemory;
use direct_calls::CallList;
use log_lines::Log;
use logged_calls::{Held, LoggedEnd, Stopped};
use run_coverage::Coverage;
use seq_check::Checked;
use sequence_rules::{Globals, add_declared, predefined_globals};
use sequence_trees::Spot;
use std::alloc::Global;
use target_machine::{HaltCause, Settings, Target, Unit};

/// How a logged run ended.
#[derive(Clone, Copy, Debug, PartialEq, Eq)]
pub enum LoggedEnding {
    /// Its steps are done.
    Done,
    /// It halted, with this cause.
    Halted(HaltCause),
    /// Its last unit, number `unit` from 1, met a fault that it does not forgive.
    Faulted {
        /// The number of the unit, at most 1,000,000.
        unit: u32,
        /// The access.
        what: Unit,
    },
}

/// A logged run: what it came to, and what was seen of it.
#[derive(Drop)]
pub struct Logged {
    /// How it ended.
    pub ending: LoggedEnding,
    /// The predefined variables, then the debug variables, where it is done or halted. Where it halted in a called sequence, the `__dp`, `__ap` and
    /// `__errorcontrol` of that.
    pub variables: Globals<u64>,
    /// The calls that were made, one for each unit, in order.
    pub calls: CallList,
    /// How many of them met a fault that they forgive.
    pub skipped: u32,
    /// The text of what was seen: of each loop the turns that are shown and the last.
    pub log: Log,
    /// What all that was seen covers.
    pub coverage: Coverage,
    /// The place where it ended, `None` where it is done or came to no place.
    pub at: Option<Spot>,
    /// Whether a loop timed out.
    pub timed_out: bool,
    /// Whether a message of type 2 was written.
    pub error_shown: bool,
}

// How a run ended.
fn ending_of(ended: Result<(), Stopped>, held: &Held) -> Result<LoggedEnding, OutOfMemory>
    ensures { IfOk result (λ ending. IsEndOf held.now.end ended ending held.now.units) }
{
    let Err(Stopped) = ended else {
        return Ok(LoggedEnding::Done);
    };
    match held.end {
        LoggedEnd::Halted(cause) => Ok(LoggedEnding::Halted(cause)),
        LoggedEnd::Faulted(what) => Ok(LoggedEnding::Faulted {
            unit: held.units,
            what,
        }),
        LoggedEnd::OutOfMemory => Err(OutOfMemory),
    }
}

// The place where a run ended.
fn place_of_end(ending: LoggedEnding, places: Places) -> Option<Spot>
    ensures { (seen : List Event) → places ≡ places_reached seen → result ≡ end_place ending seen }
{
    match ending {
        LoggedEnding::Done => None,
        LoggedEnding::Halted(_) | LoggedEnding::Faulted { .. } => places.into_place(),
    }
}

// What is answered at the end of a run.
fn answer_run(ended: Result<(), Stopped>, walked: Walked) -> Result<Logged, OutOfMemory>
    ensures answer { (p : Program) (start target : TargetState) → Means walked.entry.held.end ended (now walked.entry target) (meaning (start_world start None) p None)
        → (end_state (meaning (start_world start None) p None)).units ≡ units_of (outcome p start None) → IfOk result (λ run. IsLoggedRun p start target run) }
    ensures seen { (turns : ℕ) (p : Program) (start : TargetState) (first : SeenSoFar) → HasSeenNothing first
        → Unless walked.entry.held.end ended (NotesByTurns turns first (seen_so_far walked.entry) (λ shows. events_in shows (start_world start None) p None))
        → IfOk result (λ run. IsSeenOfRun turns p start run) }
{
    let ending = ending_of(ended, &walked.held)?;
    let Walked {
        held,
        places,
        coverage,
        timed_out,
        error_shown,
    } = walked;
    let log = held.log.write_text()?;
    Ok(Logged {
        ending,
        variables: held.globals,
        calls: held.calls,
        skipped: held.skipped,
        log,
        coverage,
        at: place_of_end(ending, places),
        timed_out,
        error_shown,
    })
}

/// Runs the sequence `start` of a checked set over a target, each access alone and at once, and notes what is seen. The log shows of each
/// loop the first `turns` turns and the last. Of all turns are the coverage, the place where the run ended, whether a loop timed out, and
/// whether a message of type 2 was written. It starts with the starting values of the settings and with the debug variables; where the set
/// does not have the sequence, there are no steps.
///
/// `OutOfMemory` comes where memory is refused. Nothing is said of the target then.
pub fn run_logged(
    alloc: Global,
    checked: &Checked,
    start: &str,
    settings: &Settings,
    turns: u32,
    target: &mut Target,
) -> Result<Logged, OutOfMemory>
    requires turn { 0 < settings.now.turn_us }
    requires names { map (λ variable. variable.name) settings.now.start ≡ names_of_predefined }
    // How it ended, the variables, the calls, the skips and the target are those of the outcome.
    ensures answer { IfOk result (λ run. IsLoggedRun (program_of (checked_trees checked.now) start.now settings.now) target.old target.new run) }
    // The log is the text of the events that are shown; the rest is what all events say.
    ensures seen { IfOk result (λ run. IsSeenOfRun turns (program_of (checked_trees checked.now) start.now settings.now) target.old run) }
{
    let mut globals = predefined_globals(alloc, settings.start.as_slice())?;
    add_declared(&mut globals, alloc, checked.debugvars().as_slice())?;
    let mut walked = Walked::new(alloc, globals);
    let runner = LoggedRunner {
        alloc,
        set: checked,
        turn_us: settings.turn_us,
        turns,
    };
    let ended = runner.run_all(start, &mut walked, target);
    answer_run(ended, walked)
}
