//! What a walk holds: the variables, and what was seen so far.
ghost use Rattle.std.specs.Prelude.{◌≡◌, ◌++◌, [], ◌∷◌, false, OnOk, length, take, None, unwrap_or, codes};
ghost use Rattle.target_calls.specs.World.{start_world};
ghost use Rattle.target_machine.specs.State.{TargetState};
ghost use Rattle.run_coverage.specs.Covered.{IsOf};
ghost use Rattle.sequence_rules.specs.Direct.{now_at};
ghost use Rattle.sequence_rules.specs.Locals.{locals_of};
ghost use Rattle.sequence_rules.specs.Machine.{with_locals, with_variables};
ghost use Rattle.sequence_rules.specs.Shared.{bindings_of};
ghost use Rattle.sequence_rules.specs.Variables.{bound_variable, set_in, set_visible, value_named, visible};
ghost use Rattle.logged_runs.specs.Walk.{ChangesWalk, now};

use crate::places::Places;
use dap_base::{NameText, OutOfMemory};
use direct_calls::CallList;
use log_lines::EventLog;
use logged_calls::{Held, LoggedEnd};
use run_coverage::Coverage;
use sequence_rules::{Globals, Locals};
use std::alloc::Global;
use std::mem;

// What a walk holds, and what was seen so far.
#[derive(Drop)]
pub(crate) struct Walked<'a> {
    pub held: Held<'a>,
    pub places: Places,
    pub coverage: Coverage,
    /// Whether a loop timed out.
    pub timed_out: bool,
    /// Whether a message of type 2 was written.
    pub error_shown: bool,
}

impl<'a> Walked<'a> {
    /// What a run starts with: these variables, and nothing else.
    pub fn new(alloc: Global, globals: Globals<u64>) -> Walked<'a>
        ensures state { (target : TargetState) → now result target
            ≡ record { globals = bindings_of globals; locals = []; units = 0; lines = 0; steps = 0; rest = now_at (start_world target None) None } }
        ensures log { result.held.log ≡ record { lines = []; depth = 0 } }
        ensures places { result.places ≡ [] }
        ensures coverage { IsOf result.coverage [] }
        ensures timed_out { result.timed_out ≡ false }
        ensures error_shown { result.error_shown ≡ false }
    {
        Walked {
            held: Held {
                globals,
                locals: Locals::new(alloc),
                units: 0,
                lines: 0,
                steps: 0,
                calls: CallList::new(alloc),
                large: Vec::new(alloc),
                skipped: 0,
                end: LoggedEnd::OutOfMemory,
                log: EventLog::new(alloc),
            },
            places: Places::new(alloc),
            coverage: Coverage::new(alloc),
            timed_out: false,
            error_shown: false,
        }
    }

    /// The value of a visible variable, 0 where there is none.
    pub fn get_visible(&self, name: &str) -> u64
        ensures { (target : TargetState) → result ≡ unwrap_or (visible name.now (now self.now target)) 0 }
    {
        if let Some(value) = self.held.locals.get(name) {
            return value;
        }
        self.get_global(name)
    }

    /// The value of a variable that all sequences share, 0 where there is none.
    pub fn get_global(&self, name: &str) -> u64
        ensures { result ≡ unwrap_or (value_named (bindings_of self.now.held.globals) name.now) 0 }
    {
        match self.held.globals.get(name) {
            Some(value) => value,
            None => 0,
        }
    }

    /// Gives a visible variable a value.
    pub fn store(&mut self, name: &str, value: u64)
        ensures { ChangesWalk self.old self.new (set_visible name.now value) }
    {
        if !self.held.locals.set(name, value) {
            self.held.globals.set(name, value);
        }
    }

    /// Declares a variable of the running sequence.
    pub fn declare(&mut self, alloc: Global, name: &NameText, value: u64) -> Result<(), OutOfMemory>
        ensures { OnOk result (ChangesWalk self.old self.new (λ s. with_locals s (s.locals ++ bound_variable name.now value ∷ []))) }
    {
        self.held.locals.add(alloc, name.as_str(), value)
    }

    /// How many variables the running sequence has.
    pub fn local_count(&self) -> usize
        ensures { result ≡ length (locals_of self.now.held.locals) }
    {
        self.held.locals.len()
    }

    /// Takes the variables of the running sequence out.
    pub fn take_locals(&mut self, alloc: Global) -> Locals<u64>
        ensures taken { locals_of result ≡ locals_of self.old.held.locals }
        ensures changes { ChangesWalk self.old self.new (λ s. with_locals s []) }
    {
        mem::replace(&mut self.held.locals, Locals::new(alloc))
    }

    /// Drops the variables of the running sequence after the first `len`.
    pub fn cut_back(&mut self, len: usize)
        ensures { ChangesWalk self.old self.new (λ s. with_locals s (take len s.locals)) }
    {
        self.held.locals.truncate(len);
    }

    // Gives a variable that all sequences share a value.
    fn set_global(&mut self, name: &str, value: u64)
        ensures { ChangesWalk self.old self.new (λ s. with_variables s (set_in s.globals name.now value) s.locals) }
    {
        self.held.globals.set(name, value);
    }

    fn set_locals(&mut self, locals: Locals<u64>)
        ensures { ChangesWalk self.old self.new (λ s. with_locals s (locals_of locals)) }
    {
        self.held.locals = locals;
    }

    /// Returns from a called sequence: gives the caller its `__dp`, `__ap` and `__errorcontrol`, and its own variables.
    pub fn give_back(&mut self, dp: u64, ap: u64, control: u64, locals: Locals<u64>)
        ensures { ChangesWalk self.old self.new
            (λ s. with_variables s (set_in (set_in (set_in s.globals (codes "__dp") dp) (codes "__ap") ap) (codes "__errorcontrol") control) (locals_of locals)) }
    {
        self.set_global("__dp", dp);
        self.set_global("__ap", ap);
        self.set_global("__errorcontrol", control);
        self.set_locals(locals);
    }
}
