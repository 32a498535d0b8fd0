//! Steps, read from JSON.
ghost use Rattle.std.specs.Prelude.{◌≡◌, codes, option_map};
ghost use Rattle.serde_json.specs.View.{view, items_view};
ghost use Rattle.serde_json.specs.Find.{get};
ghost use Rattle.json_form.specs.Faults.{Gives, at};
ghost use Rattle.json_form.specs.declared.path.PathStep.TheVariants.{Index};
ghost use Rattle.device_tree.specs.StepTree.{no_steps};
ghost use Rattle.device_tree.specs.StepsReading.{block_step, inner_steps, control_after, control_step, steps_in, items_in, step_in};

use crate::steps::{Step, Steps};
use json_form::{
    Flag, JobFault, Number, Path, Reader, Text, fault_under_index, fault_under_key, member_or,
    missing_fault, only_keys_of, optional_of, required_of,
};
use serde_json::Value;
use std::alloc::Global;

const BLOCK_KEYS: [&str; 3] = ["block", "atomic", "info"];

const CONTROL_KEYS: [&str; 5] = ["control", "if", "while", "timeout", "info"];

const ANY_TIMEOUT: Number<u64> = Number {
    low: 0,
    high: u64::MAX,
};

// A step with the key `block`.
#[tactic(auto, unfolding(crate::specs::StepsReading::block_step))]
fn block_of(alloc: Global, value: &Value) -> Result<Step, JobFault>
    ensures { Gives result (block_step (view value.now)) }
{
    only_keys_of(alloc, value, &BLOCK_KEYS)?;
    let code = required_of(alloc, value, "block", &Text)?;
    let atomic = member_or(alloc, value, "atomic", &Flag, false)?;
    let _info = optional_of(alloc, value, "info", &Text)?;
    Ok(Step::Block { code, atomic })
}

// The steps inside a control.
#[cycle(step_reader)]
fn inner_of(alloc: Global, value: &Value) -> Result<Steps, JobFault>
    ensures { Gives result (inner_steps (option_map steps_in (get (codes "control") (view value.now)))) }
{
    match value.get("control") {
        Some(member) => match steps_of(alloc, member) {
            Ok(steps) => Ok(steps),
            Err(fault) => Err(fault_under_key(alloc, fault, "control")),
        },
        None => Err(missing_fault(alloc, "control")),
    }
}

// A control, after the steps inside.
#[tactic(auto, unfolding(crate::specs::StepsReading::control_after))]
fn control_of(alloc: Global, value: &Value, steps: Steps) -> Result<Step, JobFault>
    ensures { Gives result (control_after steps (view value.now)) }
{
    let cond = optional_of(alloc, value, "if", &Text)?;
    let repeat = optional_of(alloc, value, "while", &Text)?;
    let timeout = optional_of(alloc, value, "timeout", &ANY_TIMEOUT)?;
    let _info = optional_of(alloc, value, "info", &Text)?;
    Ok(Step::Control {
        cond,
        repeat,
        timeout,
        steps,
    })
}

// A step without the key `block`.
#[cycle(step_reader)]
#[tactic(auto, unfolding(crate::specs::StepsReading::control_step))]
fn control_step_of(alloc: Global, value: &Value) -> Result<Step, JobFault>
    ensures { Gives result (control_step (option_map steps_in (get (codes "control") (view value.now))) (view value.now)) }
{
    only_keys_of(alloc, value, &CONTROL_KEYS)?;
    let steps = inner_of(alloc, value)?;
    control_of(alloc, value, steps)
}

#[cycle(step_reader)]
#[tactic(auto, unfolding(crate::specs::StepsReading::step_with), using(crate::proofs::StepsOpen::opening))]
fn step_of(alloc: Global, value: &Value) -> Result<Step, JobFault>
    ensures { Gives result (step_in (view value.now)) }
{
    if value.get("block").is_some() {
        block_of(alloc, value)
    } else {
        control_step_of(alloc, value)
    }
}

#[cycle(step_reader)]
fn indexed_step_of(alloc: Global, value: &Value, index: usize) -> Result<Step, JobFault>
    ensures { Gives result (at (Index index) (step_in (view value.now))) }
{
    match step_of(alloc, value) {
        Ok(step) => Ok(step),
        Err(fault) => Err(fault_under_index(alloc, fault, index)),
    }
}

#[cycle(step_reader)]
#[tactic(auto, unfolding(crate::specs::StepsReading::items_in))]
fn items_of(alloc: Global, values: &[Value]) -> Result<Steps, JobFault>
    ensures { Gives result (items_in no_steps (items_view values.now)) }
{
    let mut steps = Steps::new(alloc);
    for value in values {
        let step = indexed_step_of(alloc, value, steps.len())?;
        steps.push(step)?;
    }
    Ok(steps)
}

// The steps of a sequence or of a control.
#[cycle(step_reader)]
#[tactic(auto, using(crate::proofs::StepsOpen::opening))]
fn steps_of(alloc: Global, value: &Value) -> Result<Steps, JobFault>
    ensures { Gives result (steps_in (view value.now)) }
{
    match value.as_array() {
        Some(values) => items_of(alloc, values),
        None => Err(JobFault::WrongKind(Path::new(alloc))),
    }
}

/// Reads a list of steps.
#[derive(Clone, Copy)]
pub struct StepList;

impl Reader for StepList {
    type Item = Steps;

    ghost reads = { λ _. steps_in };

    fn read(&self, alloc: Global, value: &Value) -> Result<Steps, JobFault> {
        steps_of(alloc, value)
    }
}
