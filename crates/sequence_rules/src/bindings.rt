//! Variables and their values, in a list in which the newest is the last.

ghost use Rattle.std.specs.Prelude.{◌≡◌};
ghost use Rattle.sequence_rules.specs.Variables.{has_in, newest_in, set_newest};

use crate::names::same_name;
use dap_base::NameText;

/// A variable and its value.
#[derive(Debug, Drop)]
pub struct Binding<V> {
    pub name: NameText,
    pub value: V,
}

// The value of the newest variable with the name, sought from the last. `None` exactly where none has it.
pub(crate) fn newest_in<V: Copy>(bindings: &[Binding<V>], name: &str) -> Option<V>
    ensures { result ≡ newest_in bindings.now name.now }
{
    let mut index = bindings.len();
    while index > 0 {
        index -= 1;
        if same_name(name, bindings[index].name.as_str()) {
            return Some(bindings[index].value);
        }
    }
    None
}

// Gives the newest variable with the name this value; whether there is one. Where none has it, nothing changes.
pub(crate) fn set_newest<V: Copy>(bindings: &mut [Binding<V>], name: &str, value: V) -> bool
    ensures found { result ≡ has_in bindings.old name.now }
    ensures set { bindings.new ≡ set_newest bindings.old name.now value }
{
    let mut index = bindings.len();
    while index > 0 {
        index -= 1;
        if same_name(name, bindings[index].name.as_str()) {
            bindings[index].value = value;
            return true;
        }
    }
    false
}
