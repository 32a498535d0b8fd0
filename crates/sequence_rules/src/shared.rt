//! The variables that all sequences share, as a runner holds them.
ghost use Rattle.std.specs.Prelude.{◌≡◌, true, List, unwrap_or, codes};
ghost use Rattle.sequence_rules.specs.declared.bindings.Binding.{Binding};
ghost use Rattle.sequence_rules.specs.Shared.{bindings_of};
ghost use Rattle.sequence_rules.specs.Variables.{set_in, value_named};

use crate::globals::Globals;
use crate::names::same_name;
use target_calls::Value;

/// What a variable holds: a number, or what stands for one.
pub trait VariableValue: Copy {
    /// The number 0.
    ghost zero: { Self };

    /// The number 0.
    fn zero() -> Self
        ensures { result ≡ zero };

    /// Whether the other value is the same one.
    fn is_same(self, other: Self) -> bool
        ensures same { result ≡ true → self ≡ other }
        ensures only { self ≡ other → result ≡ true };
}

impl VariableValue for u64 {
    ghost zero = { 0 };

    fn zero() -> u64 {
        0
    }

    fn is_same(self, other: u64) -> bool {
        self == other
    }
}

impl VariableValue for Value {
    ghost use Rattle.target_calls.specs.declared.calls.Value.TheVariants.{Number};

    ghost zero = { Number 0 };

    fn zero() -> Value {
        Value::Number(0)
    }

    fn is_same(self, other: Value) -> bool {
        self == other
    }
}

/// The variables that all sequences share. The values of `__dp`, `__ap` and `__errorcontrol` lie beside them: most calls use them, and find
/// them so without their names.
#[derive(Drop)]
pub struct SharedVariables<V: VariableValue> {
    variables: Globals<V>,
    dp: V,
    ap: V,
    control: V,
    ghost dp_is: { dp ≡ unwrap_or (value_named (bindings_of variables) (codes "__dp")) V.zero },
    ghost ap_is: { ap ≡ unwrap_or (value_named (bindings_of variables) (codes "__ap")) V.zero },
    ghost control_is: { control ≡ unwrap_or (value_named (bindings_of variables) (codes "__errorcontrol")) V.zero },
}

// The value of a variable, 0 where there is none.
fn value_in<V: VariableValue>(variables: &Globals<V>, name: &str) -> V
    ensures { result ≡ unwrap_or (value_named (bindings_of variables.now) name.now) V.zero }
{
    match variables.get(name) {
        Some(value) => value,
        None => V::zero(),
    }
}

// The value of the variable `own` once the variable `name` was given one; before that it was `before`.
#[tactic(auto, using(crate::proofs::SharedLemmas::elsewhere))]
fn value_after<V: VariableValue>(variables: &Globals<V>, name: &str, own: &str, before: V) -> V
    ensures { (old : List (Binding V)) (value : V) → before ≡ unwrap_or (value_named old own.now) V.zero → bindings_of variables.now ≡ set_in old name.now value
        → result ≡ unwrap_or (value_named (bindings_of variables.now) own.now) V.zero }
{
    if same_name(name, own) {
        value_in(variables, own)
    } else {
        before
    }
}

impl<V: VariableValue> SharedVariables<V> {
    /// These variables.
    pub fn new(variables: Globals<V>) -> SharedVariables<V>
        ensures { result.variables ≡ variables }
    {
        let dp = value_in(&variables, "__dp");
        let ap = value_in(&variables, "__ap");
        let control = value_in(&variables, "__errorcontrol");
        SharedVariables {
            variables,
            dp,
            ap,
            control,
        }
    }

    /// All of them, in their order.
    pub fn all(&self) -> &Globals<V>
        ensures { result.now ≡ self.now.variables }
    {
        &self.variables
    }

    /// The value of a variable, 0 where there is none.
    pub fn get(&self, name: &str) -> V
        ensures { result ≡ unwrap_or (value_named (bindings_of self.now.variables) name.now) V.zero }
    {
        value_in(&self.variables, name)
    }

    /// The value of `__dp`, 0 where there is none.
    pub fn dp(&self) -> V
        ensures { result ≡ unwrap_or (value_named (bindings_of self.now.variables) (codes "__dp")) V.zero }
    {
        self.dp
    }

    /// The value of `__ap`, 0 where there is none.
    pub fn ap(&self) -> V
        ensures { result ≡ unwrap_or (value_named (bindings_of self.now.variables) (codes "__ap")) V.zero }
    {
        self.ap
    }

    /// The value of `__errorcontrol`, 0 where there is none.
    pub fn control(&self) -> V
        ensures { result ≡ unwrap_or (value_named (bindings_of self.now.variables) (codes "__errorcontrol")) V.zero }
    {
        self.control
    }

    /// Gives a variable a value. Where none has the name, nothing changes.
    pub fn set(&mut self, name: &str, value: V)
        ensures { bindings_of self.new.variables ≡ set_in (bindings_of self.old.variables) name.now value }
    {
        self.variables.set(name, value);
        self.dp = value_after(&self.variables, name, "__dp", self.dp);
        self.ap = value_after(&self.variables, name, "__ap", self.ap);
        self.control = value_after(&self.variables, name, "__errorcontrol", self.control);
    }

    /// Gives `__dp` a value.
    #[tactic(auto, using(crate::proofs::SharedLemmas::set_same))]
    pub fn set_dp(&mut self, value: V)
        ensures { bindings_of self.new.variables ≡ set_in (bindings_of self.old.variables) (codes "__dp") value }
    {
        if !value.is_same(self.dp) {
            self.set("__dp", value);
        }
    }

    /// Gives `__ap` a value.
    #[tactic(auto, using(crate::proofs::SharedLemmas::set_same))]
    pub fn set_ap(&mut self, value: V)
        ensures { bindings_of self.new.variables ≡ set_in (bindings_of self.old.variables) (codes "__ap") value }
    {
        if !value.is_same(self.ap) {
            self.set("__ap", value);
        }
    }

    /// Gives `__errorcontrol` a value.
    #[tactic(auto, using(crate::proofs::SharedLemmas::set_same))]
    pub fn set_control(&mut self, value: V)
        ensures { bindings_of self.new.variables ≡ set_in (bindings_of self.old.variables) (codes "__errorcontrol") value }
    {
        if !value.is_same(self.control) {
            self.set("__errorcontrol", value);
        }
    }
}
