//! The log of the run of a job.
ghost use Rattle.std.specs.Prelude.{◌≡◌, ℕ, IfOk, List};
ghost use Rattle.job_text.specs.Ranges.{AreSettings};
ghost use Rattle.probe_core.specs.Ranges.{IsBenchJob};
ghost use Rattle.seq_check.specs.Answers.{checked_trees};
ghost use Rattle.target_machine.specs.State.{TargetState};
ghost use Rattle.sequence_rules.specs.Shared.{bindings_of};
ghost use Rattle.logged_runs.specs.Answers.{IsLoggedRun, IsSeenOfRun};
ghost use Rattle.log_tool.specs.Logs.{IsLogOf, Subject, has_nonzero_result, last_lines, subject_of, subject_status};

use crate::ending::{at_text, end_text};
use crate::text::LongText;
use dap_base::OutOfMemory;
use job_check::ValidRun;
use log_lines::Log;
use log_words::LogCommand;
use logged_runs::{Logged, LoggedEnding, run_logged};
use seq_check::Checked;
use sequence_rules::Globals;
use std::alloc::Global;
use target_machine::Target;

/// How a run came out.
#[derive(Clone, Copy, Debug, PartialEq, Eq)]
pub enum RunStatus {
    /// It came to its end.
    Done,
    /// It came to its end, but failed, and that was asked for.
    Failed,
    /// It halted, or its last unit met a fault.
    Stopped,
}

/// The log of a run.
#[derive(Drop)]
pub struct RunLog {
    /// What was seen.
    pub log: Log,
    /// The lines after it: how the run ended, where it stopped, and what it covered.
    pub last: LongText,
    /// How the run came out.
    pub status: RunStatus,
}

// Runs the sequence of the job on its target.
fn run_of(alloc: Global, asked: &LogCommand, valid: &ValidRun) -> Result<Logged, OutOfMemory>
    requires settings { AreSettings valid.now.job.settings }
    requires bench { IsBenchJob valid.now.job.bench }
    ensures run { let s = subject_of valid.now asked.now.sequence in IfOk result (λ run. (left : TargetState) × IsLoggedRun s.program s.target left run) }
    ensures seen { let s = subject_of valid.now asked.now.sequence in IfOk result (λ run. IsSeenOfRun asked.now.turns s.program s.target run) }
{
    let mut target = Target::new(alloc, &valid.job.bench.target)?;
    let sequence = asked.sequence.as_str();
    let settings = &valid.job.settings;
    run_logged(
        alloc,
        &valid.trees,
        sequence,
        settings,
        asked.turns,
        &mut target,
    )
}

// The lines after what was seen.
fn last_of(
    alloc: Global,
    run: &Logged,
    checked: &Checked,
    sequence: &str,
) -> Result<LongText, OutOfMemory>
    ensures { (s : Subject) (left : TargetState) (turns : ℕ) → IsLoggedRun s.program s.target left run.now → IsSeenOfRun turns s.program s.target run.now
        → s.program.set ≡ checked_trees checked.now → s.program.start ≡ sequence.now → IfOk result (λ t. t ≡ last_lines s) }
{
    let mut text = LongText::new(alloc);
    text.push(end_text(alloc, run.ending)?.as_bytes())?;
    text.push(at_text(alloc, &run.at)?.as_bytes())?;
    text.push(&run.coverage.text(checked, sequence)?)?;
    Ok(text)
}

// Whether `__Result` is not 0.
fn has_result(variables: &Globals<u64>) -> bool
    ensures { result ≡ has_nonzero_result (bindings_of variables.now) }
{
    match variables.get("__Result") {
        Some(value) => value != 0,
        None => false,
    }
}

// How a run came out, where it is asked for whether it fails.
fn status_of(fail: bool, run: &Logged) -> RunStatus
    ensures { (s : Subject) (left : TargetState) (turns : ℕ) → IsLoggedRun s.program s.target left run.now
        → IsSeenOfRun turns s.program s.target run.now → result ≡ subject_status fail s }
{
    match run.ending {
        LoggedEnding::Done => {
            let failed = run.timed_out || run.error_shown || has_result(&run.variables);
            if fail && failed {
                RunStatus::Failed
            } else {
                RunStatus::Done
            }
        }
        LoggedEnding::Halted(_) | LoggedEnding::Faulted { .. } => RunStatus::Stopped,
    }
}

/// The log of the run of the sequence that is asked for, on the target of its job. `OutOfMemory` where memory is refused.
pub fn log_of(alloc: Global, asked: &LogCommand, valid: &ValidRun) -> Result<RunLog, OutOfMemory>
    requires settings { AreSettings valid.now.job.settings }
    requires bench { IsBenchJob valid.now.job.bench }
    ensures { IfOk result (IsLogOf asked.now.turns asked.now.fail (subject_of valid.now asked.now.sequence)) }
{
    let run = run_of(alloc, asked, valid)?;
    let last = last_of(alloc, &run, &valid.trees, asked.sequence.as_str())?;
    let status = status_of(asked.fail, &run);
    Ok(RunLog {
        log: run.log,
        last,
        status,
    })
}
