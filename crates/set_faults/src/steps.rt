//! All faults of steps.
ghost use Rattle.std.specs.Prelude.{◌≡◌, OnOk, false};
ghost use Rattle.expr_grammar.specs.Tree.{code_trees};
ghost use Rattle.code_check.specs.BlockFaults.{names_after_all, BlockFault};
ghost use Rattle.sequence_trees.specs.declared.spot.Part.TheVariants as parts;
ghost use Rattle.sequence_trees.specs.Trees.{step_tree, steps_tree};
ghost use Rattle.seq_check.specs.StepFaults.{is_step_before, names_after_step, names_after_steps, At, FaultInStep, FaultInSteps};
ghost use Rattle.set_faults.specs.Sites.{site_step, step_fault_at, Appends};

use crate::blocks::block_faults;
use crate::controls::add_own;
use crate::site::{Fault, Site, add_part};
use code_check::{Names, Scope};
use dap_base::{ItemList, OutOfMemory};
use expr_grammar::Stmt;
use sequence_trees::{CheckedStep, Part, inner_path};
use std::alloc::Global;

// Adds the faults of a block, and makes the names visible that it declares.
fn add_block(
    alloc: Global,
    names: &mut Names,
    sequences: &Names,
    site: Site<'_>,
    code: &[Stmt],
    found: &mut ItemList<Fault>,
) -> Result<(), OutOfMemory>
    ensures list { OnOk result (Appends is_step_before (step_fault_at (site_step site.entry))
        (At parts.Block (BlockFault (record { visible = names.old; sequences = sequences.now; in_debugvars = false })
        (code_trees code.now))) found.old found.new) }
    ensures names { OnOk result (names.new ≡ names_after_all names.old (code_trees code.now)) }
{
    let faults = block_faults(alloc, names, sequences, false, code)?;
    add_part(alloc, site, Part::Block, faults.as_slice(), found)
}

#[cycle(steps)]
fn add_step(
    alloc: Global,
    names: &mut Names,
    sequences: &Names,
    around: u64,
    site: Site<'_>,
    step: &CheckedStep,
    found: &mut ItemList<Fault>,
) -> Result<(), OutOfMemory>
    ensures list { OnOk result (Appends is_step_before (step_fault_at (site_step site.entry))
        (FaultInStep (record { visible = names.old; sequences = sequences.now; in_debugvars = false }) around
        (step_tree step.now)) found.old found.new) }
    ensures names { OnOk result (names.new ≡ names_after_step names.old (step_tree step.now)) }
{
    match step {
        CheckedStep::Block(code) => {
            add_block(alloc, names, sequences, site, code.as_slice(), found)
        }
        CheckedStep::Control {
            cond,
            repeat,
            timeout,
            steps,
        } => {
            let scope = Scope {
                visible: names,
                sequences,
                in_debugvars: false,
            };
            add_own(alloc, scope, around, site, cond, repeat, *timeout, found)?;
            let inside = around.saturating_add(1);
            add_inner(
                alloc,
                names,
                sequences,
                inside,
                site,
                steps.as_slice(),
                found,
            )
        }
    }
}

/// Adds the faults of the steps inside the step at the site, after which the names that they declare end.
#[cycle(steps)]
pub fn add_inner(
    alloc: Global,
    names: &mut Names,
    sequences: &Names,
    around: u64,
    site: Site<'_>,
    steps: &[CheckedStep],
    found: &mut ItemList<Fault>,
) -> Result<(), OutOfMemory>
    ensures list { OnOk result (Appends is_step_before (step_fault_at (site_step site.entry))
        (FaultInSteps (record { visible = names.old; sequences = sequences.now; in_debugvars = false }) around 0
        (steps_tree steps.now)) found.old found.new) }
    ensures names { OnOk result (names.new ≡ names.old) }
{
    let len = names.len();
    add_steps(alloc, names, sequences, around, site, steps, found)?;
    names.cut_back(len);
    Ok(())
}

// Adds the faults of steps that stand within `around` controls and see `names`.
#[cycle(steps)]
fn add_steps(
    alloc: Global,
    names: &mut Names,
    sequences: &Names,
    around: u64,
    site: Site<'_>,
    steps: &[CheckedStep],
    found: &mut ItemList<Fault>,
) -> Result<(), OutOfMemory>
    ensures list { OnOk result (Appends is_step_before (step_fault_at (site_step site.entry))
        (FaultInSteps (record { visible = names.old; sequences = sequences.now; in_debugvars = false }) around 0
        (steps_tree steps.now)) found.old found.new) }
    ensures names { OnOk result (names.new ≡ names_after_steps names.old (steps_tree steps.now)) }
{
    for (number, step) in steps.iter().enumerate() {
        let path = inner_path(alloc, site.path, number as u64)?;
        let step_site = Site {
            sequence: site.sequence,
            path: path.as_slice(),
        };
        add_step(alloc, names, sequences, around, step_site, step, found)?;
    }
    Ok(())
}
