//! Sets of two sequences, and the settings of a run.
ghost use Rattle.std.specs.Prelude.{◌≡◌, ◌<◌, IfOk, map};
ghost use Rattle.std.specs.List.{IsDistinct};
ghost use Rattle.std.specs.Str.{bytes_eq};
ghost use Rattle.function_table.specs.Variables.{names_of_predefined};

use dap_base::{ItemList, NameText, OutOfMemory};
use device_tree::{SharedSteps, Step, Steps};
use seq_check::{CheckFault, Checked, check};
use sequence_resolve::{LevelKind, SeqEntry, SeqSet};
use std::alloc::Global;
use target_machine::{Settings, Variable, Variables};

/// A block of code.
pub(crate) fn block(alloc: Global, code: &str) -> Result<Step, OutOfMemory> {
    let code = NameText::new(alloc, code)?;
    Ok(Step::Block {
        code,
        atomic: false,
    })
}

/// A block of code alone, or no steps where there is none.
pub(crate) fn steps_of(alloc: Global, code: &str) -> Result<Steps, OutOfMemory> {
    let mut steps = Steps::new(alloc);
    if !code.is_empty() {
        steps.push(block(alloc, code)?)?;
    }
    Ok(steps)
}

fn sequence(alloc: Global, name: &str, steps: Steps) -> Result<SeqEntry, OutOfMemory>
    ensures { IfOk result (λ e. e.name ≡ name.now) }
{
    let name = NameText::new(alloc, name)?;
    Ok(SeqEntry {
        name,
        from: LevelKind::Device,
        disabled: false,
        steps: SharedSteps::new(alloc, steps)?,
    })
}

// A set of `Main` and `Sub`.
fn set(alloc: Global, debugvars: &str, main: Steps, sub: Steps) -> Result<SeqSet, OutOfMemory>
    ensures { IfOk result (λ s. IsDistinct bytes_eq (map (λ e. e.name) s.entries)) }
{
    let mut entries = ItemList::new(alloc);
    entries.push(sequence(alloc, "Main", main)?)?;
    entries.push(sequence(alloc, "Sub", sub)?)?;
    let debugvars = NameText::new(alloc, debugvars)?;
    Ok(SeqSet { entries, debugvars })
}

/// The checked set of `Main` and `Sub`, with these debug variables.
pub(crate) fn check_set(
    alloc: Global,
    debugvars: &str,
    main: Steps,
    sub: Steps,
) -> Result<Checked, CheckFault> {
    check(alloc, &set(alloc, debugvars, main, sub)?)
}

// A predefined variable at 0.
fn variable(alloc: Global, name: &str) -> Result<Variable, OutOfMemory>
    ensures { IfOk result (λ v. v.name ≡ name.now) }
{
    let name = NameText::new(alloc, name)?;
    Ok(Variable { name, value: 0 })
}

// The predefined variables at 0.
fn start(alloc: Global) -> Result<Variables, OutOfMemory>
    ensures { IfOk result (λ start. map (λ v. v.name) start ≡ names_of_predefined) }
{
    let mut start = Variables::new(alloc);
    start.push(variable(alloc, "__protocol")?)?;
    start.push(variable(alloc, "__connection")?)?;
    start.push(variable(alloc, "__dp")?)?;
    start.push(variable(alloc, "__ap")?)?;
    start.push(variable(alloc, "__traceout")?)?;
    start.push(variable(alloc, "__errorcontrol")?)?;
    start.push(variable(alloc, "__Result")?)?;
    Ok(start)
}

/// A turn of ten microseconds, and the predefined variables at 0.
pub(crate) fn settings(alloc: Global) -> Result<Settings, OutOfMemory>
    ensures turns { IfOk result (λ s. 0 < s.turn_us) }
    ensures names { IfOk result (λ s. map (λ v. v.name) s.start ≡ names_of_predefined) }
{
    Ok(Settings {
        turn_us: 10,
        retry: 100,
        idle: 0,
        start: start(alloc)?,
    })
}
