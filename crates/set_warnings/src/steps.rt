//! The warnings of steps.
ghost use Rattle.std.specs.Prelude.{◌≡◌, ◌++◌, OnOk, option_map};
ghost use Rattle.expr_grammar.specs.Tree.{tree, code_trees};
ghost use Rattle.sequence_trees.specs.declared.spot.Part.TheVariants as parts;
ghost use Rattle.sequence_trees.specs.Trees.{step_tree, steps_tree};
ghost use Rattle.set_warnings.specs.Assigned.{block_warnings};
ghost use Rattle.set_warnings.specs.Steps.{own_warnings, part_at_path, step_warnings, steps_warnings};

use crate::assigned::{add_block, add_condition};
use crate::site::PartSite;
use crate::waits::{add_long, add_wait};
use crate::warning::Warning;
use code_check::Names;
use dap_base::{ItemList, OutOfMemory};
use expr_grammar::Expr;
use sequence_trees::{CheckedStep, Part, inner_path};
use std::alloc::Global;

// Adds what a control has itself.
fn add_own(
    alloc: Global,
    vars: &Names,
    sequence: &str,
    path: &[u64],
    cond: &Option<Expr>,
    repeat: &Option<Expr>,
    timeout: Option<u64>,
    steps: &[CheckedStep],
    found: &mut ItemList<Warning>,
) -> Result<(), OutOfMemory>
    ensures { OnOk result (found.new ≡ found.old ++ own_warnings vars.now sequence.now path.now (option_map tree cond.now) (option_map tree repeat.now) timeout (steps_tree steps.now)) }
{
    let at = |part| PartSite {
        sequence,
        path,
        part,
    };
    add_long(alloc, at(Part::Control), repeat, timeout, found)?;
    add_condition(alloc, vars, at(Part::If), cond, found)?;
    add_wait(alloc, at(Part::While), repeat, steps, found)?;
    add_condition(alloc, vars, at(Part::While), repeat, found)
}

// Adds the warnings of the step at the path.
#[cycle(steps)]
fn add_step(
    alloc: Global,
    vars: &Names,
    sequence: &str,
    path: &[u64],
    step: &CheckedStep,
    found: &mut ItemList<Warning>,
) -> Result<(), OutOfMemory>
    ensures { OnOk result (found.new ≡ found.old ++ step_warnings vars.now sequence.now path.now (step_tree step.now)) }
{
    match step {
        CheckedStep::Block(code) => {
            let part = Part::Block;
            let site = PartSite {
                sequence,
                path,
                part,
            };
            add_block(alloc, vars, site, code.as_slice(), found)
        }
        CheckedStep::Control {
            cond,
            repeat,
            timeout,
            steps,
        } => {
            let steps = steps.as_slice();
            add_own(
                alloc, vars, sequence, path, cond, repeat, *timeout, steps, found,
            )?;
            add_steps(alloc, vars, sequence, path, steps, found)
        }
    }
}

/// Adds the warnings of the steps inside the one at the path, in order.
#[cycle(steps)]
pub fn add_steps(
    alloc: Global,
    vars: &Names,
    sequence: &str,
    path: &[u64],
    steps: &[CheckedStep],
    found: &mut ItemList<Warning>,
) -> Result<(), OutOfMemory>
    ensures { OnOk result (found.new ≡ found.old ++ steps_warnings vars.now sequence.now path.now 0 (steps_tree steps.now)) }
{
    for (number, step) in steps.iter().enumerate() {
        let inner = inner_path(alloc, path, number as u64)?;
        add_step(alloc, vars, sequence, inner.as_slice(), step, found)?;
    }
    Ok(())
}
