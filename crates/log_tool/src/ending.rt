//! How a run ended, and where it stopped.
ghost use Rattle.std.specs.Prelude.{◌≡◌, ℕ, List, IfOk};
ghost use Rattle.target_machine.specs.declared.unit.Call.TheVariants.{Access};
ghost use Rattle.sequence_rules.specs.Runs as ending;
ghost use Rattle.sequence_rules.specs.Runs.{Outcome, units_of};
ghost use Rattle.sequence_rules.specs.declared.bindings.Binding.{Binding};
ghost use Rattle.logged_runs.specs.Answers.{LoggedRunEndsAs};
ghost use Rattle.log_tool.specs.Logs.{at_line, end_line};

use dap_base::OutOfMemory;
use log_lines::with_spot;
use logged_runs::LoggedEnding;
use report_lines::{halted_text, with_call};
use sequence_trees::Spot;
use std::alloc::Global;
use target_machine::{Call, Unit};
use text_lines::Line;

// The line of a run whose last unit, of this number from 1, met a fault.
fn faulted_text(alloc: Global, number: u32, unit: Unit) -> Result<Line, OutOfMemory>
    ensures { IfOk result (λ l. l ≡ end_line (ending.Faulted (Access unit)) number) }
{
    let line = Line::begin(alloc, "end faulted unit ")?;
    let line = line.decimal(u64::from(number))?.text(" ")?;
    with_call(alloc, line, Call::Access(unit))?.text("\n")
}

/// The line of how a run ended.
pub fn end_text(alloc: Global, end: LoggedEnding) -> Result<Line, OutOfMemory>
    ensures { (o : Outcome) (variables : List (Binding ℕ)) → LoggedRunEndsAs o end variables → IfOk result (λ l. l ≡ end_line o.ending (units_of o)) }
{
    match end {
        LoggedEnding::Done => Line::begin(alloc, "end done\n"),
        LoggedEnding::Halted(cause) => halted_text(alloc, cause),
        LoggedEnding::Faulted { unit, what } => faulted_text(alloc, unit, what),
    }
}

/// The line of where a run stopped, empty where there is no place.
pub fn at_text(alloc: Global, at: &Option<Spot>) -> Result<Line, OutOfMemory>
    ensures { IfOk result (λ l. l ≡ at_line at.now) }
{
    match at {
        Some(spot) => with_spot(Line::begin(alloc, "at ")?, spot)?.text("\n"),
        None => Line::begin(alloc, ""),
    }
}
