//! The sequences of a set by their numbers.
ghost use Rattle.std.specs.Prelude.{◌≡◌, ◌<◌, Some, IfOk, map, length, slice_get};
ghost use Rattle.std.specs.List.{IsDistinct};
ghost use Rattle.std.specs.Str.{bytes_eq};
ghost use Rattle.sequence_trees.specs.Trees.{steps_tree};
ghost use Rattle.sequence_trees.specs.SetView.{set_trees};
ghost use Rattle.seq_check.specs.SetFaults.{names_of};

use code_check::Names;
use dap_base::OutOfMemory;
use sequence_trees::{CheckedSteps, ReadSet};
use std::alloc::Global;

/// The name of the sequence of this number, from 0 in the order of the set.
pub fn name_of(set: &ReadSet, index: usize) -> &str
    requires { index < length (set_trees set.now).sequences }
    ensures { slice_get (names_of (set_trees set.now)) index ≡ Some result.now }
{
    match set.name_at(index) {
        Some(name) => name,
        None => unreachable!(),
    }
}

/// The steps of the sequence of this number, from 0 in the order of the set; none where it is disabled.
pub fn steps_of(set: &ReadSet, index: usize) -> &CheckedSteps
    requires { index < length (set_trees set.now).sequences }
    ensures { slice_get (map (λ s. s.steps) (set_trees set.now).sequences) index ≡ Some (steps_tree result.now) }
{
    match set.steps_at(index) {
        Some(steps) => steps,
        None => unreachable!(),
    }
}

/// The names of the sequences, in order. `OutOfMemory` where memory is refused.
pub fn sequence_names(alloc: Global, set: &ReadSet) -> Result<Names, OutOfMemory>
    requires { IsDistinct bytes_eq (names_of (set_trees set.now)) }
    ensures { IfOk result (λ names. names ≡ names_of (set_trees set.now)) }
{
    let mut names = Names::new(alloc);
    for index in 0..set.len() {
        names.add(alloc, name_of(set, index))?;
    }
    Ok(names)
}
