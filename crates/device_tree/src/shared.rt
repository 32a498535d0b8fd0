//! Steps with several owners.
ghost use Rattle.std.specs.Prelude.{◌≡◌, IfOk};

use crate::steps::Steps;
use dap_base::OutOfMemory;
use std::alloc::Global;
use std::marker::Model;
use std::rc::Rc;

/// The steps of a sequence, which a pack and the sets of its devices own together, so that they are
/// never copied. Contracts see the steps themselves.
#[derive(Debug, Drop)]
pub struct SharedSteps {
    steps: Rc<Steps>,
}

impl Model for SharedSteps {
    ghost use Rattle.device_tree.specs.StepTree.{StepTree, tree_code};

    ghost Value = { StepTree };

    ghost coded = { tree_code };

    ghost view = { λ shared. shared.steps.value };
}

impl SharedSteps {
    /// The steps, with one owner. `OutOfMemory` where memory is refused; then they are dropped.
    pub fn new(alloc: Global, steps: Steps) -> Result<SharedSteps, OutOfMemory>
        ensures { IfOk result (λ shared. shared ≡ steps) }
    {
        match Rc::new(alloc, steps) {
            Ok(steps) => Ok(SharedSteps { steps }),
            Err(_) => Err(OutOfMemory),
        }
    }

    /// One more owner of the same steps, in constant time. `OutOfMemory` where they have 2^64 - 1 owners.
    pub fn share(&self) -> Result<SharedSteps, OutOfMemory>
        ensures { IfOk result (λ shared. shared ≡ self.now) }
    {
        match self.steps.clone() {
            Ok(steps) => Ok(SharedSteps { steps }),
            Err(_) => Err(OutOfMemory),
        }
    }

    /// The steps, lent without a copy.
    pub fn as_steps(&self) -> &Steps
        ensures { result.now ≡ self.now }
    {
        &self.steps
    }
}
