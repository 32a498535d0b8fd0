//! All faults of names, arguments and steps of a set.
ghost use Rattle.std.specs.Prelude.{◌≡◌, ◌<◌, IfOk, OnOk, Some, map, true, false};
ghost use Rattle.code_check.specs.BlockFaults.{names_after_all, BlockFault};
ghost use Rattle.sequence_trees.specs.declared.spot.Part.TheVariants as parts;
ghost use Rattle.sequence_trees.specs.SetView.{set_trees};
ghost use Rattle.seq_check.specs.declared.faulty.Holder.TheVariants as holders;
ghost use Rattle.seq_check.specs.StepFaults.{At};
ghost use Rattle.seq_check.specs.SetFaults.{is_set_before, Of, names_of, FaultInSequences};
ghost use Rattle.set_faults.specs.Sites.{Appends};
ghost use Rattle.set_faults.specs.Rules.{fault_of, AreRuleFaults};

use crate::blocks::block_faults;
use crate::site::{Fault, Site, add_part};
use crate::steps::add_inner;
use code_check::Names;
use dap_base::{ItemList, OutOfMemory};
use seq_check::sequences::{name_of, steps_of};
use sequence_trees::{Part, ReadSet};
use std::alloc::Global;

// Adds the faults of the debug variables, and makes the names visible that they declare.
fn add_debugvars(
    alloc: Global,
    names: &mut Names,
    sequences: &Names,
    set: &ReadSet,
    found: &mut ItemList<Fault>,
) -> Result<(), OutOfMemory>
    ensures list { OnOk result (Appends is_set_before (fault_of (set_trees set.now))
        (Of holders.Debugvars (At parts.Debugvars
        (BlockFault (record { visible = names.old; sequences = sequences.now; in_debugvars = true })
        (set_trees set.now).debugvars))) found.old found.new) }
    ensures names { OnOk result (names.new ≡ names_after_all names.old (set_trees set.now).debugvars) }
{
    let site = Site {
        sequence: None,
        path: &[],
    };
    let faults = block_faults(alloc, names, sequences, true, set.debugvars().as_slice())?;
    add_part(alloc, site, Part::Debugvars, faults.as_slice(), found)
}

// Adds the faults of the sequences, each of which sees `names`.
fn add_sequences(
    alloc: Global,
    names: &mut Names,
    sequences: &Names,
    set: &ReadSet,
    found: &mut ItemList<Fault>,
) -> Result<(), OutOfMemory>
    ensures { OnOk result (Appends is_set_before (fault_of (set_trees set.now))
        (FaultInSequences (record { visible = names.old; sequences = sequences.now; in_debugvars = false }) 0
        (map (λ s. s.steps) (set_trees set.now).sequences)) found.old found.new) }
{
    for index in 0..set.len() {
        let site = Site {
            sequence: Some(name_of(set, index)),
            path: &[],
        };
        let steps = steps_of(set, index);
        add_inner(alloc, names, sequences, 0, site, steps.as_slice(), found)?;
    }
    Ok(())
}

/// All faults of names, arguments and steps of a set whose sequences have these names, in the order of the
/// check, each once. `OutOfMemory` where memory is refused.
pub fn rule_faults(
    alloc: Global,
    set: &ReadSet,
    sequences: &Names,
) -> Result<ItemList<Fault>, OutOfMemory>
    requires { sequences.now ≡ names_of (set_trees set.now) }
    ensures { IfOk result (AreRuleFaults (set_trees set.now)) }
{
    let mut found = ItemList::new(alloc);
    let mut names = Names::predefined_names(alloc)?;
    add_debugvars(alloc, &mut names, sequences, set, &mut found)?;
    add_sequences(alloc, &mut names, sequences, set, &mut found)?;
    Ok(found)
}
