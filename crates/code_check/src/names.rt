//! Names that are found fast, and that stand in the order in which they came.
ghost use Rattle.std.specs.Prelude.{◌≡◌, ◌<◌, [], IfOk, OnOk, OnErr, IfSome, is_some, position, length, map, string_bytes, take};
ghost use Rattle.std.specs.Str.{bytes_eq};
ghost use Rattle.function_table.specs.Variables.{names_of_predefined};
ghost use Rattle.expr_grammar.specs.Names.{has_name, with_name};

use dap_base::OutOfMemory;
use function_table::PREDEFINED;
use indexmap::IndexSet;
use std::alloc::Global;
use std::marker::Model;

/// Names, no two of them the same, each found without going through the others. Contracts see their list.
#[derive(Drop)]
pub struct Names {
    set: IndexSet<String>,
}

impl Model for Names {
    ghost use Rattle.std.specs.Prelude.{ℕ, List, map, string_bytes};

    ghost Value = { List (List ℕ) };

    ghost view = { λ n. map string_bytes n.set.keys };
}

impl Names {
    /// No names. Nothing is allocated.
    pub fn new(alloc: Global) -> Names
        ensures { result ≡ [] }
    {
        Names {
            set: IndexSet::new(alloc),
        }
    }

    /// How many names there are.
    pub fn len(&self) -> usize
        ensures { result ≡ length self.now }
    {
        self.set.len()
    }

    /// The names in order, lent without a copy.
    pub fn as_slice(&self) -> &[String]
        ensures { map string_bytes result.now ≡ self.now }
    {
        self.set.as_slice()
    }

    /// Whether the name is among these.
    #[tactic(auto, using(crate::proofs::NameLemmas::naming))]
    pub fn has(&self, name: &str) -> bool
        ensures { result ≡ has_name self.now name.now }
    {
        self.set.contains(name)
    }

    /// The place of the name among these, counted from 0. `None` exactly where it is not among them.
    #[tactic(auto, using(crate::proofs::NameLemmas::naming))]
    pub fn place_of(&self, name: &str) -> Option<usize>
        ensures place { result ≡ position (bytes_eq name.now) self.now }
        ensures within { IfSome result (λ place. place < length self.now) }
    {
        self.set.get_index_of(name)
    }

    /// Puts the name after the others, unless it is among them. Where memory is refused, the names
    /// stay.
    #[tactic(auto, using(crate::proofs::NameLemmas::naming))]
    pub fn add(&mut self, alloc: Global, name: &str) -> Result<(), OutOfMemory>
        ensures ok { OnOk result (self.new ≡ with_name self.old name.now) }
        ensures err { OnErr result (self.new ≡ self.old) }
    {
        let Ok(key) = String::from_str(alloc, name) else {
            return Err(OutOfMemory);
        };
        let Ok(_) = self.set.insert(key) else {
            return Err(OutOfMemory);
        };
        Ok(())
    }

    /// Drops the names after the first `len`.
    #[tactic(auto, using(crate::proofs::NameLemmas::naming))]
    pub fn cut_back(&mut self, len: usize)
        ensures { self.new ≡ take len self.old }
    {
        self.set.truncate(len);
    }

    /// The names of the predefined variables.
    pub fn predefined_names(alloc: Global) -> Result<Names, OutOfMemory>
        ensures { IfOk result (λ n. n ≡ names_of_predefined) }
    {
        let mut names = Names::new(alloc);
        for name in PREDEFINED {
            names.add(alloc, name)?;
        }
        Ok(names)
    }
}
