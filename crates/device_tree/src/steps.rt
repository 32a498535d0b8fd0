//! The steps of sequences.
ghost use Rattle.std.specs.Prelude.{◌≡◌, OnOk, OnErr, slice_get};
ghost use Rattle.std.specs.Option.{option_copied};
ghost use Rattle.device_tree.specs.StepTree.{no_steps};
ghost use Rattle.device_tree.specs.StepsView.{then_step, tree_len, step_at, steps_view};

use dap_base::{NameText, OutOfMemory};
use std::alloc::Global;
use std::marker::Model;

/// The steps of a sequence or of a control, in order. Contracts see them as a tree, `StepTree`.
#[cycle(steps)]
#[derive(Debug, Drop)]
pub struct Steps {
    items: Vec<Step>,
}

/// One step of a sequence.
#[cycle(steps)]
#[derive(Debug, Drop)]
pub enum Step {
    /// The element `block`: statements.
    Block {
        code: NameText,
        atomic: bool,
    },
    /// The element `control`: steps under the conditions `if` and `while`, and its `timeout` in
    /// microseconds.
    Control {
        cond: Option<NameText>,
        repeat: Option<NameText>,
        timeout: Option<u64>,
        steps: Steps,
    },
}

impl Model for Steps {
    ghost use Rattle.device_tree.specs.StepTree.{StepTree, tree_code, tree_size};

    ghost Value = { StepTree };

    ghost coded = { tree_code };

    ghost use Rattle.device_tree.specs.StepsView.{steps_view};

    ghost view = { λ steps. steps_view steps.items.items };

    ghost size = { tree_size };

    ghost use Rattle.std.proofs.Common.{arith};
    ghost use Rattle.device_tree.specs.StepsFall.{most_le-tree_size};

    ghost size_decreases = { λ steps h. omega (arith, most_le-tree_size steps.items.items) };
}

fn item_at(items: &[Step], index: usize) -> Option<&Step>
    ensures { option_copied result ≡ slice_get items.now index }
{
    items.get(index)
}

impl Steps {
    /// No steps. Nothing is allocated.
    pub fn new(alloc: Global) -> Steps
        ensures { result ≡ no_steps }
    {
        Steps {
            items: Vec::new(alloc),
        }
    }

    /// The number of steps, those inside controls not counted.
    #[tactic(auto, using(crate::proofs::StepsLemmas::appending))]
    pub fn len(&self) -> usize
        ensures { result ≡ tree_len self.now }
    {
        self.items.len()
    }

    /// The step at `index`, counted from 0. `None` exactly past the end.
    #[tactic(auto, using(crate::proofs::StepsLemmas::appending))]
    pub fn get(&self, index: usize) -> Option<&Step>
        ensures { option_copied result ≡ step_at self.now index }
    {
        item_at(&self.items, index)
    }

    /// The steps in order, lent without a copy.
    pub fn as_slice(&self) -> &[Step]
        ensures { steps_view result.now ≡ self.now }
    {
        self.items.as_slice()
    }

    /// Appends `step`. Where memory is refused, the steps are unchanged and `step` is dropped.
    #[tactic(auto, using(crate::proofs::StepsLemmas::appending))]
    pub fn push(&mut self, step: Step) -> Result<(), OutOfMemory>
        ensures ok { OnOk result (self.new ≡ then_step self.old step) }
        ensures err { OnErr result (self.new ≡ self.old) }
    {
        if self.items.push(step).is_err() {
            return Err(OutOfMemory);
        }
        Ok(())
    }
}
