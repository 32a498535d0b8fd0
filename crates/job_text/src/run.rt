//! How sequences are run: the member `run`.
ghost use Rattle.std.specs.Prelude.{◌≡◌, [], codes, map, IfOk};
ghost use Rattle.serde_json.specs.View.{view};
ghost use Rattle.json_form.specs.Faults.{Gives};
ghost use Rattle.json_form.specs.Reading.{or_else, only_keys};
ghost use Rattle.function_table.specs.Variables.{names_of_predefined};
ghost use Rattle.job_text.specs.RunReading.{with_value, zeros, variable_in, values_after, variables_in, run_in, default_settings};

use dap_base::{ItemList, NameText, OutOfMemory};
use device_tree::JobFault;
use function_table::PREDEFINED;
use json_form::{Number, Reader, member_or, only_keys_of, optional_of};
use serde_json::Value;
use std::alloc::Global;
use target_machine::{Settings, Variable, Variables};

fn variable(alloc: Global, name: &str, value: u64) -> Result<Variable, OutOfMemory>
    ensures { IfOk result (λ v. v ≡ with_value value name.now) }
{
    let name = NameText::new(alloc, name)?;
    Ok(Variable { name, value })
}

fn zeros_of(alloc: Global, names: &[&str]) -> Result<Variables, OutOfMemory>
    ensures { IfOk result (λ vs. vs ≡ map (with_value 0) (map (λ name. name.now) names.now)) }
{
    let mut variables = ItemList::new(alloc);
    for name in names {
        variables.push(variable(alloc, name, 0)?)?;
    }
    Ok(variables)
}

const ANY: Number<u64> = Number {
    low: 0,
    high: u64::MAX,
};

#[tactic(auto, unfolding(crate::specs::RunReading::variable_in))]
fn given_variable(alloc: Global, value: &Value, name: &str) -> Result<Variable, JobFault>
    ensures { Gives result (variable_in name.now (view value.now)) }
{
    let number = member_or(alloc, value, name, &ANY, 0)?;
    Ok(variable(alloc, name, number)?)
}

#[tactic(auto, unfolding(crate::specs::RunReading::values_after))]
fn values_of(alloc: Global, value: &Value, names: &[&str]) -> Result<Variables, JobFault>
    ensures { Gives result (values_after [] (map (λ name. name.now) names.now) (view value.now)) }
{
    let mut variables = ItemList::new(alloc);
    for name in names {
        variables.push(given_variable(alloc, value, name)?)?;
    }
    Ok(variables)
}

// That the value has no other keys than the names of the predefined variables.
fn only_predefined(alloc: Global, value: &Value) -> Result<(), JobFault>
    ensures { Gives result (only_keys names_of_predefined (view value.now)) }
{
    only_keys_of(alloc, value, &PREDEFINED)
}

// A value for each predefined variable, in their order.
fn predefined_of(alloc: Global, value: &Value) -> Result<Variables, JobFault>
    ensures { Gives result (values_after [] names_of_predefined (view value.now)) }
{
    values_of(alloc, value, &PREDEFINED)
}

// Each predefined variable at 0.
fn predefined_zeros(alloc: Global) -> Result<Variables, OutOfMemory>
    ensures { IfOk result (λ vs. vs ≡ zeros) }
{
    zeros_of(alloc, &PREDEFINED)
}

#[derive(Clone, Copy)]
struct VariablesReader;

impl Reader for VariablesReader {
    type Item = Variables;

    ghost reads = { λ _. variables_in };

    #[tactic(auto, unfolding(crate::specs::RunReading::variables_in))]
    fn read(&self, alloc: Global, value: &Value) -> Result<Variables, JobFault> {
        only_predefined(alloc, value)?;
        predefined_of(alloc, value)
    }
}

#[tactic(auto, using(crate::proofs::Defaults::defaulting))]
fn start_of(alloc: Global, run: &Value) -> Result<Variables, JobFault>
    ensures { Gives result (or_else (codes "variables") variables_in zeros (view run.now)) }
{
    match optional_of(alloc, run, "variables", &VariablesReader)? {
        Some(variables) => Ok(variables),
        None => Ok(predefined_zeros(alloc)?),
    }
}

const RUN_KEYS: [&str; 4] = ["turn_us", "retry", "idle", "variables"];

const TURN_US: Number<u32> = Number {
    low: 1,
    high: 60_000_000,
};

const RETRY: Number<u16> = Number {
    low: 0,
    high: u16::MAX,
};

const IDLE: Number<u8> = Number {
    low: 0,
    high: u8::MAX,
};

const DEFAULT_TURN_US: u32 = 10;

const DEFAULT_RETRY: u16 = 100;

#[derive(Clone, Copy)]
struct RunReader;

impl Reader for RunReader {
    type Item = Settings;

    ghost reads = { λ _. run_in };

    #[tactic(auto, unfolding(crate::specs::RunReading::run_in))]
    fn read(&self, alloc: Global, value: &Value) -> Result<Settings, JobFault> {
        only_keys_of(alloc, value, &RUN_KEYS)?;
        let turn_us = member_or(alloc, value, "turn_us", &TURN_US, DEFAULT_TURN_US)?;
        let retry = member_or(alloc, value, "retry", &RETRY, DEFAULT_RETRY)?;
        let idle = member_or(alloc, value, "idle", &IDLE, 0)?;
        let start = start_of(alloc, value)?;
        Ok(Settings {
            turn_us,
            retry,
            idle,
            start,
        })
    }
}

fn defaults(alloc: Global) -> Result<Settings, OutOfMemory>
    ensures { IfOk result (λ s. s ≡ default_settings) }
{
    Ok(Settings {
        turn_us: DEFAULT_TURN_US,
        retry: DEFAULT_RETRY,
        idle: 0,
        start: predefined_zeros(alloc)?,
    })
}

/// The member `run` of a job, or the settings without it.
#[tactic(auto, using(crate::proofs::Defaults::defaulting))]
pub fn settings_of(alloc: Global, job: &Value) -> Result<Settings, JobFault>
    ensures { Gives result (or_else (codes "run") run_in default_settings (view job.now)) }
{
    match optional_of(alloc, job, "run", &RunReader)? {
        Some(settings) => Ok(settings),
        None => Ok(defaults(alloc)?),
    }
}
