//! The variables that a sequence declares.
ghost use Rattle.std.specs.Prelude.{◌≡◌, ◌++◌, false, [], ◌∷◌, OnErr, OnOk, length, take};
ghost use Rattle.sequence_rules.specs.Locals.{locals_of};
ghost use Rattle.sequence_rules.specs.Variables.{bound_variable, has_in, newest_in, set_newest};

use crate::bindings::{Binding, newest_in, set_newest};
use crate::globals::Globals;
use crate::parts::Locals;
use dap_base::{NameText, OutOfMemory};
use std::alloc::Global;

// How many variables are sought one by one: as many as take less time than a look-up by name.
const FEW: usize = 16;

// More variables than a run can declare, since each declaration is a step of it.
const MOST: usize = 4_294_967_295;

// One more variable at the end of a list.
fn push<V: Copy>(
    bindings: &mut Vec<Binding<V>>,
    alloc: Global,
    name: &str,
    value: V,
) -> Result<(), OutOfMemory>
    ensures answer { OnOk result (bindings.new.items ≡ bindings.old.items ++ bound_variable name.now value ∷ []) }
    ensures same { OnErr result (bindings.new.items ≡ bindings.old.items) }
{
    let name = NameText::new(alloc, name)?;
    match bindings.push(Binding { name, value }) {
        Ok(()) => Ok(()),
        Err(_) => Err(OutOfMemory),
    }
}

impl<V: Copy> Locals<V> {
    /// No variables.
    pub fn new(alloc: Global) -> Locals<V>
        ensures { locals_of result ≡ [] }
    {
        Locals {
            first: Vec::new(alloc),
            named: Globals::new(alloc),
            hiding: Vec::new(alloc),
        }
    }

    /// How many variables there are.
    pub fn len(&self) -> usize
        ensures { result ≡ length (locals_of self.now) }
    {
        self.first.len() + self.named.len() + self.hiding.len()
    }

    /// The value of the newest variable with the name. `None` exactly where none has it.
    pub fn get(&self, name: &str) -> Option<V>
        ensures { result ≡ newest_in (locals_of self.now) name.now }
    {
        if let Some(value) = newest_in(&self.hiding, name) {
            return Some(value);
        }
        if let Some(value) = self.named.get_newest(name) {
            return Some(value);
        }
        newest_in(&self.first, name)
    }

    /// Gives the newest variable with the name this value; whether there is one. Where none has the name, nothing changes.
    pub fn set(&mut self, name: &str, value: V) -> bool
        ensures found { result ≡ has_in (locals_of self.old) name.now }
        ensures set { locals_of self.new ≡ set_newest (locals_of self.old) name.now value }
        ensures same { result ≡ false → locals_of self.new ≡ locals_of self.old }
    {
        if set_newest(&mut self.hiding, name, value) {
            return true;
        }
        if self.named.set_newest(name, value) {
            return true;
        }
        set_newest(&mut self.first, name, value)
    }

    /// Adds a variable at the end. `OutOfMemory` where memory is refused; nothing has changed then.
    pub fn add(&mut self, alloc: Global, name: &str, value: V) -> Result<(), OutOfMemory>
        ensures answer { OnOk result (locals_of self.new ≡ locals_of self.old ++ bound_variable name.now value ∷ []) }
        ensures same { OnErr result (locals_of self.new ≡ locals_of self.old) }
    {
        if self.len() >= MOST {
            return Err(OutOfMemory);
        }
        if self.len() < FEW && self.named.len() == 0 && self.hiding.is_empty() {
            return push(&mut self.first, alloc, name, value);
        }
        if self.hiding.is_empty() && !self.named.has(name) {
            return self.named.add(alloc, name, value);
        }
        push(&mut self.hiding, alloc, name, value)
    }

    /// Drops the variables after the first `len`.
    pub fn truncate(&mut self, len: usize)
        ensures { locals_of self.new ≡ take len (locals_of self.old) }
    {
        let after = len.saturating_sub(self.first.len());
        self.hiding.truncate(after.saturating_sub(self.named.len()));
        self.named.truncate(after);
        self.first.truncate(len);
    }
}
