//! The first fault of a whole set, apart from calls that lead back or too deep.
ghost use Rattle.std.specs.Prelude.{◌≡◌, ◌<◌, Some, true, false, IfOk, OnOk, IfNone, map, option_map};
ghost use Rattle.expr_grammar.specs.Tree.{code_trees};
ghost use Rattle.code_check.specs.First.{IsFirst};
ghost use Rattle.code_check.specs.BlockFaults.{names_after_all, BlockFault};
ghost use Rattle.sequence_trees.specs.declared.spot.Part.TheVariants as parts;
ghost use Rattle.sequence_trees.specs.SetView.{set_trees};
ghost use Rattle.seq_check.specs.declared.faulty.Holder.TheVariants as holders;
ghost use Rattle.seq_check.specs.StepFaults.{At};
ghost use Rattle.seq_check.specs.SetFaults.{is_set_before, Of, names_of, FaultInSequences, FaultInSet};
ghost use Rattle.seq_check.specs.Views.{held_view};

use crate::faulty::{HeldFault, Holder, at_own_step, in_part};
use crate::sequences::steps_of;
use crate::steps::inner_fault;
use code_check::{Names, block_fault};
use dap_base::OutOfMemory;
use expr_grammar::Stmt;
use sequence_trees::{Part, ReadSet};
use std::alloc::Global;

fn debugvars_fault(
    alloc: Global,
    names: &mut Names,
    sequences: &Names,
    code: &[Stmt],
) -> Result<Option<HeldFault>, OutOfMemory>
    ensures first { IfOk result (λ r. IsFirst is_set_before
        (Of holders.Debugvars (At parts.Debugvars
        (BlockFault (record { visible = names.old; sequences = sequences.now; in_debugvars = true }) (code_trees code.now))))
        (option_map held_view r)) }
    ensures names { OnOk result (names.new ≡ names_after_all names.old (code_trees code.now)) }
{
    let fault = block_fault(alloc, names, sequences, true, code)?;
    match in_part(Part::Debugvars, fault) {
        Some(fault) => Ok(Some(HeldFault {
            holder: Holder::Debugvars,
            faulty: at_own_step(alloc, fault),
        })),
        None => Ok(None),
    }
}

fn sequences_fault(
    alloc: Global,
    names: &mut Names,
    sequences: &Names,
    set: &ReadSet,
) -> Result<Option<HeldFault>, OutOfMemory>
    ensures { IfOk result (λ r. IsFirst is_set_before
        (FaultInSequences (record { visible = names.old; sequences = sequences.now; in_debugvars = false }) 0
        (map (λ s. s.steps) (set_trees set.now).sequences)) (option_map held_view r)) }
{
    for index in 0..set.len() {
        let steps = steps_of(set, index);
        if let Some(faulty) = inner_fault(alloc, names, sequences, 0, steps.as_slice())? {
            return Ok(Some(HeldFault {
                holder: Holder::Sequence(index),
                faulty,
            }));
        }
    }
    Ok(None)
}

/// The first fault of a set, apart from calls that lead back or too deep.
pub fn set_fault(
    alloc: Global,
    set: &ReadSet,
    sequences: &Names,
) -> Result<Option<HeldFault>, OutOfMemory>
    requires { sequences.now ≡ names_of (set_trees set.now) }
    ensures { IfOk result (λ r. IsFirst is_set_before (FaultInSet (set_trees set.now)) (option_map held_view r)) }
{
    let mut names = Names::predefined_names(alloc)?;
    if let Some(faulty) = debugvars_fault(
        alloc,
        &mut names,
        sequences,
        set.debugvars().as_slice(),
    )? {
        return Ok(Some(faulty));
    }
    sequences_fault(alloc, &mut names, sequences, set)
}
