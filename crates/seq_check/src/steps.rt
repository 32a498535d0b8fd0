//! The first fault of steps.
ghost use Rattle.std.specs.Prelude.{◌≡◌, ◌≤◌, false, IfOk, OnOk, IfNone, option_map};
ghost use Rattle.expr_grammar.specs.Tree.{code_trees};
ghost use Rattle.code_check.specs.BlockFaults.{names_after_all, BlockFault};
ghost use Rattle.sequence_trees.specs.declared.spot.Part.TheVariants as parts;
ghost use Rattle.code_check.specs.First.{IsFirst};
ghost use Rattle.sequence_trees.specs.Trees.{step_tree, steps_tree};
ghost use Rattle.seq_check.specs.StepFaults.{is_step_before, names_after_step, names_after_steps, At, FaultInStep, FaultInSteps};
ghost use Rattle.seq_check.specs.Views.{faulty_view};

use crate::controls::own_fault;
use crate::faulty::{FaultyStep, at_own_step, from_list, in_part};
use code_check::{Names, Scope, block_fault};
use dap_base::OutOfMemory;
use expr_grammar::Stmt;
use sequence_trees::{CheckedStep, Part};
use std::alloc::Global;

fn block_step_fault(
    alloc: Global,
    names: &mut Names,
    sequences: &Names,
    code: &[Stmt],
) -> Result<Option<FaultyStep>, OutOfMemory>
    ensures first { IfOk result (λ r. IsFirst is_step_before
        (At parts.Block (BlockFault (record { visible = names.old; sequences = sequences.now; in_debugvars = false })
        (code_trees code.now))) (option_map faulty_view r)) }
    ensures names { OnOk result (names.new ≡ names_after_all names.old (code_trees code.now)) }
{
    let fault = block_fault(alloc, names, sequences, false, code)?;
    match in_part(Part::Block, fault) {
        Some(fault) => Ok(Some(at_own_step(alloc, fault))),
        None => Ok(None),
    }
}

#[cycle(steps)]
fn step_fault(
    alloc: Global,
    names: &mut Names,
    sequences: &Names,
    around: u64,
    step: &CheckedStep,
) -> Result<Option<FaultyStep>, OutOfMemory>
    ensures first { IfOk result (λ r. IsFirst is_step_before
        (FaultInStep (record { visible = names.old; sequences = sequences.now; in_debugvars = false }) around (step_tree step.now))
        (option_map faulty_view r)) }
    ensures names { IfOk result (λ r. IfNone r (names.new ≡ names_after_step names.old (step_tree step.now))) }
{
    match step {
        CheckedStep::Block(code) => block_step_fault(alloc, names, sequences, code.as_slice()),
        CheckedStep::Control {
            cond,
            repeat,
            timeout,
            steps,
        } => {
            let scope = Scope {
                visible: names,
                sequences,
                in_debugvars: false,
            };
            if let Some(fault) = own_fault(scope, around, cond, repeat, *timeout) {
                return Ok(Some(at_own_step(alloc, fault)));
            }
            inner_fault(alloc, names, sequences, around + 1, steps.as_slice())
        }
    }
}

/// The first fault of the steps inside a control, after which the names that they declare end.
#[cycle(steps)]
pub fn inner_fault(
    alloc: Global,
    names: &mut Names,
    sequences: &Names,
    around: u64,
    steps: &[CheckedStep],
) -> Result<Option<FaultyStep>, OutOfMemory>
    ensures first { IfOk result (λ r. IsFirst is_step_before
        (FaultInSteps (record { visible = names.old; sequences = sequences.now; in_debugvars = false }) around 0 (steps_tree steps.now))
        (option_map faulty_view r)) }
    ensures names { IfOk result (λ r. IfNone r (names.new ≡ names.old)) }
{
    let len = names.len();
    let found = steps_fault(alloc, names, sequences, around, steps)?;
    names.cut_back(len);
    Ok(found)
}

/// The first fault of steps that stand within `around` controls and see `names`. Where there is none,
/// `names` has those that are visible after the steps; else, and where memory is refused, it may have
/// further ones of theirs.
#[cycle(steps)]
pub fn steps_fault(
    alloc: Global,
    names: &mut Names,
    sequences: &Names,
    around: u64,
    steps: &[CheckedStep],
) -> Result<Option<FaultyStep>, OutOfMemory>
    ensures first { IfOk result (λ r. IsFirst is_step_before
        (FaultInSteps (record { visible = names.old; sequences = sequences.now; in_debugvars = false }) around 0 (steps_tree steps.now))
        (option_map faulty_view r)) }
    ensures names { IfOk result (λ r. IfNone r (names.new ≡ names_after_steps names.old (steps_tree steps.now))) }
{
    for (number, step) in steps.iter().enumerate() {
        if let Some(faulty) = step_fault(alloc, names, sequences, around, step)? {
            return Ok(Some(from_list(faulty, number as u64)?));
        }
    }
    Ok(None)
}
