//! What the direct runner holds.
ghost use Rattle.std.specs.Prelude.{◌≡◌, ◌++◌, [], ◌∷◌, ℕ, List, Option, None, OnErr, OnOk, length, take, unwrap_or, codes};
ghost use Rattle.target_machine.specs.State.{TargetState};
ghost use Rattle.target_calls.specs.World.{start_world};
ghost use Rattle.sequence_rules.specs.Direct.{Now, now_at};
ghost use Rattle.sequence_rules.specs.Locals.{locals_of};
ghost use Rattle.sequence_rules.specs.Machine.{State, with_locals, with_variables};
ghost use Rattle.sequence_rules.specs.Variables.{bound_variable, set_in, set_visible, value_named, visible};
ghost use Rattle.sequence_rules.specs.Shared.{bindings_of};
ghost use Rattle.sequence_meaning.specs.Frame.{Changes};
ghost use Rattle.sequence_meaning.specs.Held.{state_of, with_global};

use crate::end::DirectEnd;
use dap_base::{NameText, OutOfMemory};
use direct_calls::CallList;
use sequence_rules::{Globals, Locals, SharedVariables};
use std::alloc::Global;
use std::mem;

// The variables, the counts, the calls that were made, and the access ports that are known to have large addresses.
#[derive(Drop)]
pub(crate) struct DirectHeld {
    pub globals: SharedVariables<u64>,
    pub locals: Locals<u64>,
    pub units: u32,
    pub lines: u32,
    pub steps: u32,
    pub calls: CallList,
    pub large: Vec<u8>,
    pub skipped: u32,
    /// Where the numbers among the arguments of a call may stand: its content counts for nothing.
    pub numbers: Vec<u64>,
    /// Why the run goes no further. It counts only where the run has stopped.
    pub end: DirectEnd,
}

impl DirectHeld {
    /// What a run starts with: these variables, and nothing else.
    pub fn new(alloc: Global, globals: Globals<u64>) -> DirectHeld
        ensures { (target : TargetState) (written : Option (List ℕ)) → state_of result target written
            ≡ record {
              globals = bindings_of globals;
              locals = [];
              units = 0;
              lines = 0;
              steps = 0;
              rest = now_at (start_world target None) written;
            } }
    {
        DirectHeld {
            globals: SharedVariables::new(globals),
            locals: Locals::new(alloc),
            units: 0,
            lines: 0,
            steps: 0,
            calls: CallList::new(alloc),
            large: Vec::new(alloc),
            skipped: 0,
            numbers: Vec::new(alloc),
            end: DirectEnd::OutOfMemory,
        }
    }

    /// The value of a visible variable, 0 where there is none.
    pub fn get_visible(&self, name: &str) -> u64
        ensures { (s : State ℕ Now) → s.globals ≡ bindings_of self.now.globals.variables → s.locals ≡ locals_of self.now.locals
            → result ≡ unwrap_or (visible name.now s) 0 }
    {
        match self.locals.get(name) {
            Some(value) => value,
            None => self.globals.get(name),
        }
    }

    /// Gives a visible variable a value.
    pub fn store(&mut self, name: &str, value: u64)
        ensures { Changes self.old self.new (set_visible name.now value) }
    {
        if !self.locals.set(name, value) {
            self.globals.set(name, value);
        }
    }

    /// Takes an empty list for numbers out.
    pub fn take_numbers(&mut self, alloc: Global) -> Vec<u64>
        ensures none { result.items ≡ [] }
        ensures state { Changes self.old self.new (λ s. s) }
    {
        let mut numbers = mem::replace(&mut self.numbers, Vec::new(alloc));
        numbers.clear();
        numbers
    }

    /// Declares a variable of the running sequence.
    pub fn declare(&mut self, alloc: Global, name: &NameText, value: u64) -> Result<(), OutOfMemory>
        ensures state { OnOk result (Changes self.old self.new (λ s. with_locals s (s.locals ++ bound_variable name.now value ∷ []))) }
        ensures same { OnErr result (Changes self.old self.new (λ s. s)) }
    {
        self.locals.add(alloc, name.as_str(), value)
    }

    /// How many variables the running sequence has.
    pub fn local_count(&self) -> usize
        ensures { result ≡ length (locals_of self.now.locals) }
    {
        self.locals.len()
    }

    /// Takes the variables of the running sequence out.
    pub fn take_locals(&mut self, alloc: Global) -> Locals<u64>
        ensures taken { locals_of result ≡ locals_of self.old.locals }
        ensures none { Changes self.old self.new (λ s. with_locals s []) }
    {
        mem::replace(&mut self.locals, Locals::new(alloc))
    }

    /// Drops the variables of the running sequence after the first `len`.
    pub fn cut_back(&mut self, len: usize)
        ensures { Changes self.old self.new (λ s. with_locals s (take len s.locals)) }
    {
        self.locals.truncate(len);
    }

    // Gives the caller its `__dp` again.
    fn set_dp(&mut self, value: u64)
        ensures { Changes self.old self.new (with_global (codes "__dp") value) }
    {
        self.globals.set_dp(value);
    }

    // Gives the caller its `__ap` again.
    fn set_ap(&mut self, value: u64)
        ensures { Changes self.old self.new (with_global (codes "__ap") value) }
    {
        self.globals.set_ap(value);
    }

    // Gives the caller its `__errorcontrol` again.
    fn set_control(&mut self, value: u64)
        ensures { Changes self.old self.new (with_global (codes "__errorcontrol") value) }
    {
        self.globals.set_control(value);
    }

    fn set_locals(&mut self, locals: Locals<u64>)
        ensures { Changes self.old self.new (λ s. with_locals s (locals_of locals)) }
    {
        self.locals = locals;
    }

    /// Returns from a called sequence: gives the caller its `__dp`, `__ap` and `__errorcontrol`, and its own variables.
    pub fn give_back(&mut self, dp: u64, ap: u64, control: u64, locals: Locals<u64>)
        ensures { Changes self.old self.new (λ s. with_variables s
            (set_in (set_in (set_in s.globals (codes "__dp") dp) (codes "__ap") ap) (codes "__errorcontrol") control) (locals_of locals)) }
    {
        self.set_dp(dp);
        self.set_ap(ap);
        self.set_control(control);
        self.set_locals(locals);
    }
}
