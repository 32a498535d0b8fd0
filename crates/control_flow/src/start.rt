//! What a run starts with.
ghost use Rattle.std.specs.Prelude.{◌≡◌, ℕ, List, Option, IfOk, map};
ghost use Rattle.target_calls.specs.NeedPoints.{Costs, nothing_asked};
ghost use Rattle.target_calls.specs.World.{World};
ghost use Rattle.function_table.specs.Variables.{names_of_predefined};
ghost use Rattle.seq_check.specs.Answers.{checked_trees};
ghost use Rattle.sequence_rules.specs.Late.{late, late_of};
ghost use Rattle.sequence_rules.specs.Runs as r;
ghost use Rattle.sequence_rules.specs.Shared.{bindings_of};
ghost use Rattle.sequence_rules.specs.Steps.{start_state};
ghost use Rattle.function_calls.specs.Held.{late_state_of};
ghost use Rattle.sequence_rules.specs.Runs.{variables_of};
ghost use Rattle.control_flow.specs.Closing.{bindings_as_values};

use dap_base::OutOfMemory;
use function_calls::Held;
use seq_check::Checked;
use sequence_rules::{Globals, add_declared};
use std::alloc::Global;
use target_calls::Value;
use target_machine::{Settings, Variable};

// The predefined variables with their starting values.
fn make_globals(alloc: Global, start: &[Variable]) -> Result<Globals<Value>, OutOfMemory>
    requires { map (λ variable. variable.name) start.now ≡ names_of_predefined }
    ensures { IfOk result (λ globals. bindings_of globals ≡ bindings_as_values (variables_of start.now)) }
{
    let mut globals = Globals::new(alloc);
    for variable in start {
        globals.add(alloc, variable.name.as_str(), Value::Number(variable.value))?;
    }
    Ok(globals)
}

// What a run holds at its start: the predefined variables with their starting values, and the debug variables at 0.
pub(crate) fn held_at_start(
    alloc: Global,
    checked: &Checked,
    settings: &Settings,
) -> Result<Held, OutOfMemory>
    requires { map (λ variable. variable.name) settings.now.start ≡ names_of_predefined }
    ensures state { (cost : Costs) (w : World) (written : Option (List ℕ)) → IfOk result (λ held. late_state_of held nothing_asked written
        ≡ start_state (late cost w) settings.now.turn_us (checked_trees checked.now) (r.as_values (late cost w) (variables_of settings.now.start))
        (late_of nothing_asked written)) }
    ensures units { IfOk result (λ held. held.units ≡ 0) }
{
    let mut globals = make_globals(alloc, settings.start.as_slice())?;
    add_declared(&mut globals, alloc, checked.debugvars().as_slice())?;
    Ok(Held::new(alloc, globals))
}
