//! Numbers that are found by their names.
ghost use Rattle.std.specs.Prelude.{◌≡◌, ℕ, List, None, Some, is_some, IfOk, OnOk, if◌then◌else◌};
ghost use Rattle.std.specs.Str.{bytes_eq};
ghost use Rattle.dbgconf_text.specs.Cuts.{value_of};
ghost use Rattle.dbgconf_text.specs.Replacing.{settings_of};
ghost use Rattle.dbgconf_text.specs.Values.{value_in};

use crate::conf::ConfItem;
use dap_base::OutOfMemory;
use indexmap::IndexMap;
use std::alloc::Global;

/// Numbers with names, each found without a look at the others. Contracts see them by `value_in`.
#[derive(Drop)]
pub struct NamedValues {
    numbers: IndexMap<String, u64>,
}

impl NamedValues {
    // No numbers.
    pub fn new(alloc: Global) -> NamedValues
        ensures { (name : List ℕ) → value_in result name ≡ None }
    {
        NamedValues {
            numbers: IndexMap::new(alloc),
        }
    }

    // The values of a list. It is gone through from its end, so that the first value of a name stays.
    pub fn of(alloc: Global, conf: &[ConfItem]) -> Result<NamedValues, OutOfMemory>
        ensures { IfOk result (λ values. (name : List ℕ) → value_in values name ≡ value_of name (settings_of conf.now)) }
    {
        let mut values = NamedValues::new(alloc);
        let mut index = conf.len();
        while index > 0 {
            index -= 1;
            let item = &conf[index];
            values.put(alloc, item.name.text.as_str(), item.value)?;
        }
        Ok(values)
    }

    // Whether a number has the name.
    pub fn has(&self, name: &str) -> bool
        ensures { result ≡ is_some (value_in self.now name.now) }
    {
        self.numbers.contains_key(name)
    }

    // Gives the name this number.
    pub fn put(&mut self, alloc: Global, name: &str, number: u64) -> Result<(), OutOfMemory>
        ensures { OnOk result ((other : List ℕ) → value_in self.new other ≡ (if bytes_eq name.now other then Some number else value_in self.old other)) }
    {
        let Ok(name) = String::from_str(alloc, name) else {
            return Err(OutOfMemory);
        };
        match self.numbers.insert(name, number) {
            Ok(_) => Ok(()),
            Err(_) => Err(OutOfMemory),
        }
    }

    // The number of the name, which it loses.
    pub fn take(&mut self, name: &str) -> Option<u64>
        ensures number { result ≡ value_in self.old name.now }
        ensures left { (other : List ℕ) → value_in self.new other ≡ (if bytes_eq name.now other then None else value_in self.old other) }
    {
        self.numbers.swap_remove(name)
    }
}
