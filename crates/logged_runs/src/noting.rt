//! What is seen, noted in the log and elsewhere: each call notes one event, or what is seen of one call of a function.
ghost use Rattle.std.specs.Prelude.{◌≡◌, ◌∷◌, [], ◌≤◌, ℕ, false, Some, OnErr, OnOk};
ghost use Rattle.expr_grammar.specs.Tree.{stmt_tree, tree};
ghost use Rattle.logged_calls.specs.Held.{poll_value};
ghost use Rattle.logged_calls.specs.declared.held.LoggedEnd.TheVariants as end;
ghost use Rattle.log_lines.specs.Places.{condition_spot, debug_spot, spot_in_step};
ghost use Rattle.run_events.specs.Events as e;
ghost use Rattle.run_events.specs.Events.{units_between};
ghost use Rattle.run_events.specs.OfSteps.{poll_end, polled_events, statement_place};
ghost use Rattle.run_events.specs.OfValues.{function_events};
ghost use Rattle.sequence_rules.specs.Calls.{function_result};
ghost use Rattle.sequence_rules.specs.Direct.{direct};
ghost use Rattle.sequence_rules.specs.Steps.{dropped_value};
ghost use Rattle.sequence_trees.specs.declared.spot.Part.TheVariants as part;
ghost use Rattle.sequence_trees.specs.declared.spot.Spot.{Spot};
ghost use Rattle.target_machine.specs.Plain.{Answered};
ghost use Rattle.logged_runs.specs.Seen.{is_error_call};
ghost use Rattle.logged_runs.specs.OfSteps.{while_spot};
ghost use Rattle.logged_runs.specs.Walk.{CoversAll, NotesOne, SeesWalk, WalksAs, now};

use crate::walked::Walked;
use dap_base::Place;
use expr_grammar::{Expr, Stmt};
use function_table::Function;
use logged_calls::{LoggedEnd, Stopped, ask_poll, make_call};
use sequence_trees::Part;
use std::alloc::Global;
use target_machine::Target;

// The start of a text.
const TEXT_START: Place = Place { line: 1, column: 1 };

// Where a statement begins: a declaration at its name.
fn place_of(statement: &Stmt) -> Place
    ensures { result ≡ statement_place (stmt_tree statement.now) }
{
    match statement {
        Stmt::Empty(at) | Stmt::Plain(at, _) => *at,
        Stmt::Declare(name, _) => name.at,
    }
}

// Whether a call is that of `Message` with type 2, an error.
fn is_error_call(function: Function, numbers: &[u64]) -> bool
    ensures { result ≡ is_error_call function numbers.now }
{
    match (function, numbers.first()) {
        (Function::Message, Some(kind)) => *kind == 2,
        _ => false,
    }
}

impl<'a> Walked<'a> {
    // Memory was refused.
    fn refuse(&mut self) -> Result<(), Stopped>
        ensures refused { OnErr result (self.new.held.end ≡ end.OutOfMemory) }
        ensures never { OnOk result ⊥ }
    {
        self.held.end = LoggedEnd::OutOfMemory;
        Err(Stopped)
    }

    /// A statement of a block begins.
    pub fn begin(
        &mut self,
        sequence: &'a str,
        path: &[u64],
        statement: &'a Stmt,
    ) -> Result<(), Stopped>
        ensures { NotesOne self.old self.new result
            (e.Begins (spot_in_step sequence.now path.now part.Block (statement_place (stmt_tree statement.now))) (stmt_tree statement.now)) }
    {
        let Ok(()) = self.held.log.begin(sequence, path, statement) else {
            return self.refuse();
        };
        let Ok(()) = self.coverage.begin(sequence, path, statement) else {
            return self.refuse();
        };
        let Ok(()) = self
            .places
            .reach(sequence, path, Part::Block, place_of(statement))
        else {
            return self.refuse();
        };
        Ok(())
    }

    /// A declaration of the debug variables begins.
    pub fn begin_debug(&mut self, statement: &'a Stmt) -> Result<(), Stopped>
        ensures { NotesOne self.old self.new result (e.Begins (debug_spot (statement_place (stmt_tree statement.now))) (stmt_tree statement.now)) }
    {
        let Ok(()) = self.held.log.begin_debug(statement) else {
            return self.refuse();
        };
        let Ok(()) = self.places.reach_debug(place_of(statement)) else {
            return self.refuse();
        };
        Ok(())
    }

    /// The `if` of a control begins.
    pub fn test(&mut self, sequence: &'a str, path: &[u64], expr: &'a Expr) -> Result<(), Stopped>
        ensures { NotesOne self.old self.new result (e.Tests (condition_spot sequence.now path.now part.If) (tree expr.now)) }
    {
        let Ok(()) = self.held.log.test(sequence, path, expr) else {
            return self.refuse();
        };
        let Ok(()) = self.places.reach(sequence, path, Part::If, TEXT_START) else {
            return self.refuse();
        };
        Ok(())
    }

    /// The `if` of a control has this value.
    pub fn choose(&mut self, sequence: &str, path: &[u64], value: u64) -> Result<(), Stopped>
        ensures { NotesOne self.old self.new result (e.Chooses (condition_spot sequence.now path.now part.If) value) }
    {
        let Ok(()) = self.held.log.choose(value) else {
            return self.refuse();
        };
        let Ok(()) = self.coverage.choose(sequence, path, value) else {
            return self.refuse();
        };
        Ok(())
    }

    /// A `while` begins, with so many turns until its timeout.
    pub fn begin_loop(
        &mut self,
        sequence: &'a str,
        path: &[u64],
        expr: &'a Expr,
        count: u32,
    ) -> Result<(), Stopped>
        ensures { NotesOne self.old self.new result (e.Loops (while_spot sequence.now path.now) (tree expr.now) count) }
    {
        let Ok(()) = self.held.log.begin_loop(sequence, path, expr, count) else {
            return self.refuse();
        };
        let Ok(()) = self.places.reach(sequence, path, Part::While, TEXT_START) else {
            return self.refuse();
        };
        Ok(())
    }

    /// The turn of this number begins.
    pub fn turn(&mut self, sequence: &str, path: &[u64], number: u32) -> Result<(), Stopped>
        ensures { NotesOne self.old self.new result (e.Turns (while_spot sequence.now path.now) number) }
    {
        let Ok(()) = self.held.log.turn(number) else {
            return self.refuse();
        };
        let Ok(()) = self.places.reach(sequence, path, Part::While, TEXT_START) else {
            return self.refuse();
        };
        Ok(())
    }

    /// The `while` has this value in the turn.
    pub fn find(&mut self, value: u64) -> Result<(), Stopped>
        ensures { (spot : Spot) → NotesOne self.old self.new result (e.Finds spot value) }
    {
        let Ok(()) = self.held.log.find(value) else {
            return self.refuse();
        };
        Ok(())
    }

    /// The `while` is left in the turn of this number.
    pub fn leave_loop(&mut self, sequence: &str, path: &[u64], number: u32) -> Result<(), Stopped>
        ensures { NotesOne self.old self.new result (e.Leaves (while_spot sequence.now path.now) number) }
    {
        let Ok(()) = self.held.log.leave_loop(number) else {
            return self.refuse();
        };
        let Ok(()) = self.coverage.leave_loop(sequence, path) else {
            return self.refuse();
        };
        Ok(())
    }

    /// The `while` has made so many turns, all that its timeout allows.
    pub fn time_out(&mut self, sequence: &str, path: &[u64], count: u32) -> Result<(), Stopped>
        ensures { NotesOne self.old self.new result (e.TimesOut (while_spot sequence.now path.now) count) }
    {
        let Ok(()) = self.held.log.time_out(count) else {
            return self.refuse();
        };
        let Ok(()) = self.coverage.time_out(sequence, path) else {
            return self.refuse();
        };
        self.timed_out = true;
        Ok(())
    }

    /// The variable of this name has this value now.
    pub fn assign(&mut self, name: &'a str, value: u64) -> Result<(), Stopped>
        ensures { NotesOne self.old self.new result (e.Assigns name.now value) }
    {
        let Ok(()) = self.held.log.assign(name, value) else {
            return self.refuse();
        };
        Ok(())
    }

    /// The sequence of this name is called.
    pub fn call(&mut self, name: &'a str) -> Result<(), Stopped>
        ensures { NotesOne self.old self.new result (e.Calls name.now) }
    {
        let Ok(()) = self.held.log.call(name) else {
            return self.refuse();
        };
        let Ok(()) = self.places.call() else {
            return self.refuse();
        };
        Ok(())
    }

    /// The last sequence that was called, and has not returned, returns.
    pub fn return_back(&mut self) -> Result<(), Stopped>
        ensures { NotesOne self.old self.new result e.Returns }
    {
        let Ok(()) = self.held.log.return_back() else {
            return self.refuse();
        };
        self.places.return_back();
        Ok(())
    }

    /// A call of a function except `Sequence`, with what is seen of it.
    pub fn call_function(
        &mut self,
        alloc: Global,
        function: Function,
        text: &str,
        numbers: &[u64],
        target: &mut Target,
    ) -> Result<u64, Stopped>
        ensures gives { WalksAs self.old target.old self.new target.new result (function_result (direct false) function text.now numbers.now) }
        ensures noted { (turns : ℕ) → SeesWalk turns self.old target.old self.new result (λ s shows. function_events function text.now numbers.now s) }
    {
        let value = make_call(alloc, function, text, numbers, &mut self.held, target)?;
        if is_error_call(function, numbers) {
            self.error_shown = true;
        }
        Ok(value)
    }

    // A poll made all its turns.
    fn cover_timeout(&mut self, sequence: &str, path: &[u64]) -> Result<(), Stopped>
        ensures { (count : ℕ) → CoversAll self.old self.new result (e.TimesOut (while_spot sequence.now path.now) count ∷ []) }
    {
        let Ok(()) = self.coverage.time_out(sequence, path) else {
            return self.refuse();
        };
        self.timed_out = true;
        Ok(())
    }

    // A poll found its value.
    fn cover_match(&mut self, sequence: &str, path: &[u64]) -> Result<(), Stopped>
        ensures { CoversAll self.old self.new result (e.Matches (while_spot sequence.now path.now) ∷ []) }
    {
        let Ok(()) = self.coverage.end_poll(sequence, path) else {
            return self.refuse();
        };
        Ok(())
    }

    // How a poll ended, by its value: all but the log.
    fn cover_poll(&mut self, sequence: &str, path: &[u64], value: u64) -> Result<(), Stopped>
        ensures { (count : ℕ) → CoversAll self.old self.new result (poll_end (while_spot sequence.now path.now) count (Some (Answered value))) }
    {
        if value == 0 {
            self.cover_timeout(sequence, path)
        } else {
            self.cover_match(sequence, path)
        }
    }

    /// A poll of CTRL/STAT, which is one unit, with what is seen of it.
    pub fn poll(
        &mut self,
        sequence: &str,
        path: &[u64],
        mask: u32,
        requested: u32,
        count: u32,
        target: &mut Target,
    ) -> Result<(), Stopped>
        requires least { 1 ≤ count }
        requires most { count ≤ 60000000 }
        ensures gives { WalksAs self.old target.old self.new target.new result (λ s. dropped_value (direct false) (poll_value (mask, requested) count s)) }
        ensures noted { (turns : ℕ) → SeesWalk turns self.old target.old self.new result
            (λ s shows. polled_events (while_spot sequence.now path.now) count (units_between s (now self.new target.new))) }
    {
        let value = ask_poll(mask, requested, count, &mut self.held, target)?;
        self.cover_poll(sequence, path, value)
    }
}
