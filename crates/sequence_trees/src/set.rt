//! A set of sequences with trees of code in the place of texts.

ghost use Rattle.std.specs.Prelude.{◌≡◌, [], OnOk, None, is_some, length, option_map, slice_get, string_bytes};
ghost use Rattle.expr_grammar.specs.Tree.{code_trees};
ghost use Rattle.sequence_trees.specs.Trees.{steps_tree, steps_named, with_sequence};
ghost use Rattle.sequence_trees.specs.SetView.{set_trees};

use crate::steps::CheckedSteps;
use dap_base::OutOfMemory;
use expr_grammar::Code;
use indexmap::IndexMap;
use std::alloc::Global;

/// The code of a set's debug variables, and its sequences in the set's order, of which no two have
/// one name. Contracts see it by
/// `set_trees`, as the plain `SetTrees` of this crate's specs.
#[derive(Debug, Drop)]
pub struct ReadSet {
    debugvars: Code,
    sequences: IndexMap<String, CheckedSteps>,
}

impl ReadSet {
    /// These debug variables, and no sequences.
    pub(crate) fn new(alloc: Global, debugvars: Code) -> ReadSet
        ensures { set_trees result ≡ record { debugvars = code_trees debugvars; sequences = [] } }
    {
        ReadSet {
            debugvars,
            sequences: IndexMap::new(alloc),
        }
    }

    /// Adds a sequence whose name is new.
    pub(crate) fn add(&mut self, name: String, steps: CheckedSteps) -> Result<(), OutOfMemory>
        requires { steps_named (string_bytes name) (set_trees self.old).sequences ≡ None }
        ensures { OnOk result (set_trees self.new ≡ with_sequence (string_bytes name) (steps_tree steps) (set_trees self.old)) }
    {
        let Ok(_) = self.sequences.insert(name, steps) else {
            return Err(OutOfMemory);
        };
        Ok(())
    }

    /// The code of the debug variables.
    pub fn debugvars(&self) -> &Code
        ensures { code_trees result.now ≡ (set_trees self.now).debugvars }
    {
        &self.debugvars
    }

    /// How many sequences there are, disabled ones counted.
    pub fn len(&self) -> usize
        ensures { result ≡ length (set_trees self.now).sequences }
    {
        self.sequences.len()
    }

    /// The name of the sequence at `index`, counted from 0 in the set's order. `None` exactly past the
    /// end.
    pub fn name_at(&self, index: usize) -> Option<&str>
        ensures { option_map (λ n. n.now) result ≡ option_map (λ s. s.name) (slice_get (set_trees self.now).sequences index) }
    {
        match self.sequences.get_index(index) {
            Some((name, _)) => Some(name.as_str()),
            None => None,
        }
    }

    /// The steps of the sequence at `index`, none where it is disabled. `None` exactly past the end.
    pub fn steps_at(&self, index: usize) -> Option<&CheckedSteps>
        ensures { option_map (λ s. steps_tree s.now) result ≡ option_map (λ s. s.steps) (slice_get (set_trees self.now).sequences index) }
    {
        match self.sequences.get_index(index) {
            Some((_, steps)) => Some(steps),
            None => None,
        }
    }

    /// Whether a sequence has the name, disabled or not.
    pub fn has(&self, name: &str) -> bool
        ensures { result ≡ is_some (steps_named name.now (set_trees self.now).sequences) }
    {
        self.sequences.contains_key(name)
    }

    /// The steps of the sequence of the name, none where it is disabled. `None` exactly where no
    /// sequence has the name.
    pub fn steps(&self, name: &str) -> Option<&CheckedSteps>
        ensures { option_map (λ s. steps_tree s.now) result ≡ steps_named name.now (set_trees self.now).sequences }
    {
        self.sequences.get(name)
    }
}
