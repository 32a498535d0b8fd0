//! The variables that all sequences share.

ghost use Rattle.std.specs.Prelude.{◌≡◌, ◌<◌, true, false, [], IfSome, OnOk, OnErr, Some, length, option_map, slice_get, take};
ghost use Rattle.indexmap.specs.IndexMap.{index_map_len};
ghost use Rattle.sequence_rules.specs.Shared.{bindings_of, pair_of};
ghost use Rattle.sequence_rules.specs.Variables.{has_in, newest_in, value_named, set_in, set_newest, with_new};

use crate::names::same_name;
use dap_base::OutOfMemory;
use indexmap::IndexMap;
use std::alloc::Global;

/// Variables with their values, in the order in which they were added. No two have one name, and each is found by its name without
/// going through the others. Contracts see them by `bindings_of`, as the plain list of this crate's specs.
#[derive(Drop)]
pub struct Globals<V> {
    values: IndexMap<String, V>,
}

impl<V: Copy> Globals<V> {
    /// No variables.
    pub fn new(alloc: Global) -> Globals<V>
        ensures { bindings_of result ≡ [] }
    {
        Globals {
            values: IndexMap::new(alloc),
        }
    }

    /// How many variables there are.
    pub fn len(&self) -> usize
        ensures { result ≡ length (bindings_of self.now) }
    {
        self.values.len()
    }

    /// The name and the value of the variable at `index`, counted from 0. `None` exactly past the end.
    pub fn at(&self, index: usize) -> Option<(&str, V)>
        ensures { option_map pair_of result ≡ slice_get (bindings_of self.now) index }
    {
        match self.values.get_index(index) {
            Some((name, value)) => Some((name.as_str(), *value)),
            None => None,
        }
    }

    /// Whether a variable has the name.
    pub fn has(&self, name: &str) -> bool
        ensures { result ≡ has_in (bindings_of self.now) name.now }
    {
        if self.values.len() == 0 {
            return false;
        }
        self.values.contains_key(name)
    }

    // The value of the variable at the index, where it has the name.
    fn value_at(&self, index: usize, name: &str) -> Option<V>
        ensures { IfSome result (λ value. value_named (bindings_of self.now) name.now ≡ Some value) }
    {
        match self.values.get_index(index) {
            Some((known, value)) if same_name(name, known.as_str()) => Some(*value),
            _ => None,
        }
    }

    // The value of the variable with the name, where it is one of the last eight.
    #[inline(never)]
    fn last_value(&self, name: &str) -> Option<V>
        ensures { IfSome result (λ value. value_named (bindings_of self.now) name.now ≡ Some value) }
    {
        let len = self.values.len();
        let mut index = len;
        while index > len.saturating_sub(8) {
            index -= 1;
            if let Some(value) = self.value_at(index, name) {
                return Some(value);
            }
        }
        None
    }

    // The value of the variable with the name, found without a look at the others.
    #[inline(never)]
    fn get_stored(&self, name: &str) -> Option<V>
        ensures { result ≡ value_named (bindings_of self.now) name.now }
    {
        self.values.get(name).copied()
    }

    /// The value of the variable with the name. `None` exactly where none has it. It takes the least time where the variable is one of the
    /// last eight.
    pub fn get(&self, name: &str) -> Option<V>
        ensures { result ≡ value_named (bindings_of self.now) name.now }
    {
        match self.last_value(name) {
            Some(value) => Some(value),
            None => self.get_stored(name),
        }
    }

    // Gives the variable at the index this value, where it has the name; whether it has.
    fn set_at(&mut self, index: usize, name: &str, value: V) -> bool
        requires { index < index_map_len self.old.values }
        ensures found { result ≡ true → has_in (bindings_of self.old) name.now ≡ true }
        ensures set { result ≡ true → bindings_of self.new ≡ set_in (bindings_of self.old) name.now value }
        ensures same { result ≡ false → bindings_of self.new ≡ bindings_of self.old }
    {
        let (known, stored) = self.values.pair_mut(index);
        if same_name(name, known.as_str()) {
            *stored = value;
            true
        } else {
            false
        }
    }

    // Gives the variable with the name this value, found without a look at the others; whether there is one.
    fn set_stored(&mut self, name: &str, value: V) -> bool
        ensures found { result ≡ has_in (bindings_of self.old) name.now }
        ensures set { bindings_of self.new ≡ set_in (bindings_of self.old) name.now value }
    {
        match self.values.get_mut(name) {
            Some(held) => {
                *held = value;
                true
            }
            None => false,
        }
    }

    // Gives the variable with the name this value; whether there is one.
    #[inline(never)]
    fn assign(&mut self, name: &str, value: V) -> bool
        ensures found { result ≡ has_in (bindings_of self.old) name.now }
        ensures set { bindings_of self.new ≡ set_in (bindings_of self.old) name.now value }
    {
        if let Some(last) = self.values.len().checked_sub(1)
            && self.set_at(last, name, value)
        {
            return true;
        }
        self.set_stored(name, value)
    }

    /// Gives the variable with the name this value. Where none has it, nothing changes. It takes the least time where the variable is the
    /// last.
    pub fn set(&mut self, name: &str, value: V)
        ensures { bindings_of self.new ≡ set_in (bindings_of self.old) name.now value }
    {
        self.assign(name, value);
    }

    /// Adds a variable at the end, unless one has the name. `OutOfMemory` where memory is refused; nothing has changed then.
    pub fn add(&mut self, alloc: Global, name: &str, value: V) -> Result<(), OutOfMemory>
        ensures answer { OnOk result (bindings_of self.new ≡ with_new (bindings_of self.old) name.now value) }
        ensures same { OnErr result (bindings_of self.new ≡ bindings_of self.old) }
    {
        if self.has(name) {
            return Ok(());
        }
        let Ok(name) = String::from_str(alloc, name) else {
            return Err(OutOfMemory);
        };
        match self.values.insert(name, value) {
            Ok(_) => Ok(()),
            Err(_) => Err(OutOfMemory),
        }
    }

    // The value of the newest variable with the name, which is the only one.
    pub(crate) fn get_newest(&self, name: &str) -> Option<V>
        ensures { result ≡ newest_in (bindings_of self.now) name.now }
    {
        if self.values.len() == 0 {
            return None;
        }
        self.get(name)
    }

    // Gives the newest variable with the name this value, which is the only one; whether there is one. Where none has it, nothing changes.
    pub(crate) fn set_newest(&mut self, name: &str, value: V) -> bool
        ensures found { result ≡ has_in (bindings_of self.old) name.now }
        ensures set { bindings_of self.new ≡ set_newest (bindings_of self.old) name.now value }
    {
        if self.values.len() == 0 {
            return false;
        }
        self.assign(name, value)
    }

    // Drops the variables after the first `len`.
    pub(crate) fn truncate(&mut self, len: usize)
        ensures { bindings_of self.new ≡ take len (bindings_of self.old) }
    {
        self.values.truncate(len);
    }
}
