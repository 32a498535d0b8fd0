//! What a run holds.
ghost use Rattle.std.specs.Prelude.{◌≡◌, ◌++◌, [], ◌∷◌, ℕ, List, Option, OnOk, OnErr, length, take, unwrap_or, codes};
ghost use Rattle.target_calls.specs.NeedPoints.{Asks, Costs};
ghost use Rattle.target_calls.specs.World.{World};
ghost use Rattle.target_calls.specs.declared.calls.Value.{Value};
ghost use Rattle.target_calls.specs.declared.calls.Value.TheVariants.{Number};
ghost use Rattle.sequence_rules.specs.Late.{Late, late, late_of};
ghost use Rattle.sequence_rules.specs.Locals.{locals_of};
ghost use Rattle.sequence_rules.specs.Machine.{State, with_locals, with_variables};
ghost use Rattle.sequence_rules.specs.Shared.{bindings_of};
ghost use Rattle.sequence_rules.specs.Steps as m;
ghost use Rattle.sequence_rules.specs.Variables.{bound_variable, set_in, set_visible, visible};
ghost use Rattle.function_calls.specs.Ends.{CountsStep};
ghost use Rattle.function_calls.specs.Held.{late_state_of};

use dap_base::{NameText, OutOfMemory};
use sequence_rules::{Globals, Locals, MOST_STEPS, SharedVariables};
use std::alloc::Global;
use std::mem;
use target_calls::Value;
use target_machine::HaltCause;

/// The variables and the counts of a run. The value of a variable is a number, or the place of a result that may not have come.
#[derive(Drop)]
pub struct Held {
    /// The variables that all sequences share.
    pub globals: SharedVariables<Value>,
    /// Those that the running sequence declared, the newest last.
    pub locals: Locals<Value>,
    /// How many units were asked, at most 1,000,000.
    pub units: u32,
    /// How many lines were written, at most 100,000.
    pub lines: u32,
    /// How many steps were counted, at most 100,000,000.
    pub steps: u32,
}

impl Held {
    /// What a run starts with: these variables, and nothing else.
    pub fn new(alloc: Global, globals: Globals<Value>) -> Held
        ensures state { (asks : Asks) (written : Option (List ℕ)) → late_state_of result asks written
            ≡ record { globals = bindings_of globals; locals = []; units = 0; lines = 0; steps = 0; rest = late_of asks written } }
        ensures units { result.units ≡ 0 }
    {
        Held {
            globals: SharedVariables::new(globals),
            locals: Locals::new(alloc),
            units: 0,
            lines: 0,
            steps: 0,
        }
    }

    /// The value of a visible variable, 0 where there is none.
    pub fn get_visible(&self, name: &str) -> Value
        ensures { (s : State Value Late) → s.globals ≡ bindings_of self.now.globals.variables → s.locals ≡ locals_of self.now.locals
            → result ≡ unwrap_or (visible name.now s) (Number 0) }
    {
        match self.locals.get(name) {
            Some(value) => value,
            None => self.globals.get(name),
        }
    }

    /// Gives a visible variable a value.
    pub fn store(&mut self, name: &str, value: Value)
        ensures state { (asks : Asks) (written : Option (List ℕ))
            → late_state_of self.new asks written ≡ set_visible name.now value (late_state_of self.old asks written) }
        ensures units { self.new.units ≡ self.old.units }
    {
        if !self.locals.set(name, value) {
            self.globals.set(name, value);
        }
    }

    /// Declares a variable of the running sequence. `OutOfMemory` where memory is refused; nothing has changed then.
    pub fn declare(
        &mut self,
        alloc: Global,
        name: &NameText,
        value: Value,
    ) -> Result<(), OutOfMemory>
        ensures state { (asks : Asks) (written : Option (List ℕ))
            → OnOk result
            (late_state_of self.new asks written ≡ with_locals (late_state_of self.old asks written) (locals_of self.old.locals ++ bound_variable name.now value ∷ [])) }
        ensures same { (asks : Asks) (written : Option (List ℕ)) → OnErr result (late_state_of self.new asks written ≡ late_state_of self.old asks written) }
        ensures units { self.new.units ≡ self.old.units }
    {
        self.locals.add(alloc, name.as_str(), value)
    }

    /// How many variables the running sequence has.
    pub fn local_count(&self) -> usize
        ensures { result ≡ length (locals_of self.now.locals) }
    {
        self.locals.len()
    }

    /// Takes the variables of the running sequence out.
    pub fn take_locals(&mut self, alloc: Global) -> Locals<Value>
        ensures taken { locals_of result ≡ locals_of self.old.locals }
        ensures none { (asks : Asks) (written : Option (List ℕ))
            → late_state_of self.new asks written ≡ with_locals (late_state_of self.old asks written) [] }
        ensures units { self.new.units ≡ self.old.units }
    {
        mem::replace(&mut self.locals, Locals::new(alloc))
    }

    /// Drops the variables of the running sequence after the first `len`.
    pub fn cut_back(&mut self, len: usize)
        ensures state { (asks : Asks) (written : Option (List ℕ))
            → late_state_of self.new asks written ≡ with_locals (late_state_of self.old asks written) (take len (locals_of self.old.locals)) }
        ensures units { self.new.units ≡ self.old.units }
    {
        self.locals.truncate(len);
    }

    // Gives the caller its `__dp` again.
    fn set_dp(&mut self, value: Value)
        ensures state { (asks : Asks) (written : Option (List ℕ)) → late_state_of self.new asks written
            ≡ with_variables (late_state_of self.old asks written) (set_in (bindings_of self.old.globals.variables) (codes "__dp") value) (locals_of self.old.locals) }
        ensures units { self.new.units ≡ self.old.units }
    {
        self.globals.set_dp(value);
    }

    // Gives the caller its `__ap` again.
    fn set_ap(&mut self, value: Value)
        ensures state { (asks : Asks) (written : Option (List ℕ)) → late_state_of self.new asks written
            ≡ with_variables (late_state_of self.old asks written) (set_in (bindings_of self.old.globals.variables) (codes "__ap") value) (locals_of self.old.locals) }
        ensures units { self.new.units ≡ self.old.units }
    {
        self.globals.set_ap(value);
    }

    // Gives the caller its `__errorcontrol` again.
    fn set_control(&mut self, value: Value)
        ensures state { (asks : Asks) (written : Option (List ℕ)) → late_state_of self.new asks written
            ≡ with_variables (late_state_of self.old asks written) (set_in (bindings_of self.old.globals.variables) (codes "__errorcontrol") value) (locals_of self.old.locals) }
        ensures units { self.new.units ≡ self.old.units }
    {
        self.globals.set_control(value);
    }

    fn set_locals(&mut self, locals: Locals<Value>)
        ensures state { (asks : Asks) (written : Option (List ℕ))
            → late_state_of self.new asks written ≡ with_locals (late_state_of self.old asks written) (locals_of locals) }
        ensures units { self.new.units ≡ self.old.units }
    {
        self.locals = locals;
    }

    /// Returns from a called sequence: gives the caller its `__dp`, `__ap` and `__errorcontrol`, and its own variables.
    pub fn give_back(&mut self, dp: Value, ap: Value, control: Value, locals: Locals<Value>)
        ensures state { (asks : Asks) (written : Option (List ℕ)) → late_state_of self.new asks written
            ≡ with_variables (late_state_of self.old asks written)
            (set_in (set_in (set_in (bindings_of self.old.globals.variables) (codes "__dp") dp) (codes "__ap") ap) (codes "__errorcontrol") control) (locals_of locals) }
        ensures units { self.new.units ≡ self.old.units }
    {
        self.set_dp(dp);
        self.set_ap(ap);
        self.set_control(control);
        self.set_locals(locals);
    }

    /// Counts a step. Halts with `StepLimit` where it would be number 100,000,001.
    #[tactic(auto, unfolding(sequence_rules::specs::Steps::counted_step))]
    pub fn count_step(&mut self) -> Result<(), HaltCause>
        ensures gives { (cost : Costs) (w : World) (asks : Asks) (written : Option (List ℕ))
            → CountsStep result (late_state_of self.new asks written) (m.counted_step (late cost w) (late_state_of self.old asks written)) }
        ensures units { self.new.units ≡ self.old.units }
    {
        if self.steps >= MOST_STEPS {
            return Err(HaltCause::StepLimit);
        }
        self.steps += 1;
        Ok(())
    }
}
