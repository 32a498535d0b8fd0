//! The steps of the sequences of a set.

ghost use Rattle.std.specs.Prelude.{◌≡◌, unwrap_or};
ghost use Rattle.sequence_trees.specs.SetView.{set_trees};
ghost use Rattle.sequence_trees.specs.Trees.{NoSteps, steps_named, steps_tree};

use sequence_trees::{CheckedStep, ReadSet};

/// The steps of the sequence of the name, none where the set does not have it or it is disabled.
pub fn steps_of<'a>(set: &'a ReadSet, name: &str) -> &'a [CheckedStep]
    ensures { steps_tree result.now ≡ unwrap_or (steps_named name.now (set_trees set.now).sequences) NoSteps }
{
    match set.steps(name) {
        Some(steps) => steps.as_slice(),
        None => &[],
    }
}
