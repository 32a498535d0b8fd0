//! A checked set, and why a set is not valid.
ghost use Rattle.std.specs.Prelude.{◌≡◌, is_some, option_map};
ghost use Rattle.expr_grammar.specs.Tree.{code_trees};
ghost use Rattle.sequence_trees.specs.Trees.{steps_tree, steps_named};
ghost use Rattle.sequence_trees.specs.SetView.{set_trees};
ghost use Rattle.seq_check.specs.Valid.{IsSound};

use code_check::FaultKind;
use dap_base::OutOfMemory;
use expr_grammar::Code;
use sequence_trees::{CheckedSteps, ReadSet, Spot};

/// Why a set has no `Checked`.
#[derive(Debug, Drop)]
pub enum CheckFault {
    /// The first fault of the set, and where it is. A fault of a control itself has the place 0:0.
    Fault(FaultKind, Spot),
    /// Memory was refused.
    OutOfMemory,
}

impl From<OutOfMemory> for CheckFault {
    ghost use Rattle.std.specs.Prelude.{◌≡◌};
    ghost use Rattle.seq_check.specs.declared.checked.CheckFault.TheVariants as faults;

    ghost from_gives = { λ _ fault. fault ≡ faults.OutOfMemory };

    fn from(_refused: OutOfMemory) -> CheckFault {
        CheckFault::OutOfMemory
    }
}

/// The trees of a valid set: of its debug variables, and of each sequence, none for a disabled one.
#[derive(Debug, Drop)]
pub struct Checked {
    set: ReadSet,
    ghost sound: { ∥ IsSound (set_trees set) ∥₁ },
}

impl Checked {
    ghost use Rattle.seq_check.specs.Answers.{checked_trees};

    pub(crate) fn new(set: ReadSet) -> Checked
        requires { IsSound (set_trees set) }
        ensures { checked_trees result ≡ set_trees set }
    {
        Checked { set }
    }

    /// Whether a sequence has the name, disabled or not.
    pub fn has(&self, name: &str) -> bool
        ensures { result ≡ is_some (steps_named name.now (checked_trees self.now).sequences) }
    {
        self.set.has(name)
    }

    /// The steps of the sequence of the name, none where it is disabled. `None` exactly where no
    /// sequence has the name.
    pub fn steps(&self, name: &str) -> Option<&CheckedSteps>
        ensures { option_map (λ s. steps_tree s.now) result ≡ steps_named name.now (checked_trees self.now).sequences }
    {
        self.set.steps(name)
    }

    /// The code of the debug variables.
    pub fn debugvars(&self) -> &Code
        ensures { code_trees result.now ≡ (checked_trees self.now).debugvars }
    {
        self.set.debugvars()
    }
}
