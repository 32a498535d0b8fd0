//! A log of a run: first the events, and then their text.
ghost use Rattle.std.specs.Prelude.{◌≡◌, ◌++◌, ◌∷◌, [], ℕ, List, option_map, take, length, IfOk, OnErr, OnOk};
ghost use Rattle.direct_calls.specs.Made.{call_end_of};
ghost use Rattle.expr_grammar.specs.Tree.{tree, stmt_tree};
ghost use Rattle.sequence_trees.specs.declared.spot.Part.TheVariants as part;
ghost use Rattle.sequence_trees.specs.declared.spot.Spot.{Spot};
ghost use Rattle.run_events.specs.Events as e;
ghost use Rattle.run_events.specs.OfSteps.{statement_place};
ghost use Rattle.log_lines.specs.Entries.{event_of};
ghost use Rattle.log_lines.specs.LogLines.{Lists, text_of_lines};
ghost use Rattle.log_lines.specs.LogText.{event_line};
ghost use Rattle.log_lines.specs.Places.{condition_spot, debug_spot, spot_in_step};

use crate::entries::{EventStep, LogEntry, LogEvent, entries_text};
use dap_base::OutOfMemory;
use direct_calls::Made;
use expr_grammar::{Expr, Stmt};
use smallvec::SmallVec;
use std::alloc::Global;
use std::marker::Model;
use target_calls::Ask;
use text_lines::Line;

/// The text of a log, and how many sequences are called at its end.
#[derive(Drop)]
pub struct Log {
    text: Vec<u8>,
    depth: u32,
}

impl Model for Log {
    ghost use Rattle.log_lines.specs.LogText.{LogText};

    ghost Value = { LogText };

    ghost view = { λ log. record { text = log.text.items; depth = log.depth } };
}

impl Log {
    /// The text.
    pub fn as_bytes(&self) -> &[u8]
        ensures { result.now ≡ self.now.text }
    {
        self.text.as_slice()
    }
}

/// The log of a run so far, as events whose text is not made yet: one that is taken back costs none. Each call notes one event. Where memory is
/// refused it answers `OutOfMemory`, and the log is as it was. An event holds names and trees of the set as references. Contracts see the lines,
/// and how many sequences are called.
#[derive(Drop)]
pub struct EventLog<'a> {
    alloc: Global,
    entries: Vec<LogEntry<'a>>,
    depth: u32,
}

impl<'a> Model for EventLog<'a> {
    ghost use Rattle.std.specs.Prelude.{map};
    ghost use Rattle.log_lines.specs.Entries.{log_entry_line};
    ghost use Rattle.log_lines.specs.LogLines.{LogLines};

    ghost Value = { LogLines };

    ghost view = { λ log. record { lines = map log_entry_line log.entries.items; depth = log.depth } };
}

/// How far a log was at some time.
#[derive(Clone, Copy, Debug, PartialEq, Eq)]
pub struct LogMark {
    /// How many events were noted.
    pub len: usize,
    /// How many sequences were called.
    pub depth: u32,
}

impl<'a> EventLog<'a> {
    /// An empty log. Nothing is allocated.
    pub fn new(alloc: Global) -> EventLog<'a>
        ensures { result ≡ record { lines = []; depth = 0 } }
    {
        EventLog {
            alloc,
            entries: Vec::new(alloc),
            depth: 0,
        }
    }

    /// The text of the events. `OutOfMemory` where memory is refused.
    pub fn write_text(&self) -> Result<Log, OutOfMemory>
        ensures { IfOk result (λ log. log ≡ text_of_lines self.now) }
    {
        let text = entries_text(self.alloc, self.entries.as_slice())?;
        Ok(Log {
            text,
            depth: self.depth,
        })
    }

    /// How far the log is.
    pub fn mark(&self) -> LogMark
        ensures len { result.len ≡ length self.now.lines }
        ensures depth { result.depth ≡ self.now.depth }
    {
        LogMark {
            len: self.entries.len(),
            depth: self.depth,
        }
    }

    /// Takes back what was noted after the mark.
    pub fn cut(&mut self, mark: LogMark)
        ensures { self.new ≡ record { lines = take mark.len self.old.lines; depth = mark.depth } }
    {
        self.entries.truncate(mark.len);
        self.depth = mark.depth;
    }

    // Notes an event.
    fn note(&mut self, event: LogEvent<'a>) -> Result<(), OutOfMemory>
        ensures noted { OnOk result (self.new ≡ record { lines = self.old.lines ++ event_line self.old.depth (event_of event.entry) ∷ []; depth = self.old.depth }) }
        ensures same { OnErr result (self.new ≡ self.old) }
    {
        let depth = self.depth;
        match self.entries.push(LogEntry { depth, event }) {
            Ok(()) => Ok(()),
            Err(_) => Err(OutOfMemory),
        }
    }

    // A step, with its path copied.
    fn step(&self, sequence: &'a str, path: &[u64]) -> Result<EventStep<'a>, OutOfMemory>
        ensures sequence { IfOk result (λ step. step.sequence.now ≡ sequence.now) }
        ensures path { IfOk result (λ step. step.path.items ≡ path.now) }
    {
        let Ok(path) = SmallVec::from_slice(self.alloc, path) else {
            return Err(OutOfMemory);
        };
        Ok(EventStep { sequence, path })
    }

    /// A statement of a block begins.
    pub fn begin(
        &mut self,
        sequence: &'a str,
        path: &[u64],
        statement: &'a Stmt,
    ) -> Result<(), OutOfMemory>
        ensures { Lists self.old self.new result
            (e.Begins (spot_in_step sequence.now path.now part.Block (statement_place (stmt_tree statement.now))) (stmt_tree statement.now)) }
    {
        let step = self.step(sequence, path)?;
        self.note(LogEvent::Begins(step, statement))
    }

    /// A declaration of the debug variables begins, at this place.
    pub fn begin_debug(&mut self, statement: &'a Stmt) -> Result<(), OutOfMemory>
        ensures { Lists self.old self.new result (e.Begins (debug_spot (statement_place (stmt_tree statement.now))) (stmt_tree statement.now)) }
    {
        self.note(LogEvent::Declares(statement))
    }

    /// The `if` of a control begins.
    pub fn test(
        &mut self,
        sequence: &'a str,
        path: &[u64],
        expr: &'a Expr,
    ) -> Result<(), OutOfMemory>
        ensures { Lists self.old self.new result (e.Tests (condition_spot sequence.now path.now part.If) (tree expr.now)) }
    {
        let step = self.step(sequence, path)?;
        self.note(LogEvent::Tests(step, expr))
    }

    /// The `if` has this value.
    pub fn choose(&mut self, value: u64) -> Result<(), OutOfMemory>
        ensures { (spot : Spot) → Lists self.old self.new result (e.Chooses spot value) }
    {
        self.note(LogEvent::Chooses(value))
    }

    /// A `while` begins, with so many turns until its timeout.
    pub fn begin_loop(
        &mut self,
        sequence: &'a str,
        path: &[u64],
        expr: &'a Expr,
        turns: u32,
    ) -> Result<(), OutOfMemory>
        ensures { Lists self.old self.new result (e.Loops (condition_spot sequence.now path.now part.While) (tree expr.now) turns) }
    {
        let step = self.step(sequence, path)?;
        self.note(LogEvent::Loops(step, expr, turns))
    }

    /// The turn of this number begins.
    pub fn turn(&mut self, number: u32) -> Result<(), OutOfMemory>
        ensures { (spot : Spot) → Lists self.old self.new result (e.Turns spot number) }
    {
        self.note(LogEvent::Turns(number))
    }

    /// The `while` has this value in the turn.
    pub fn find(&mut self, value: u64) -> Result<(), OutOfMemory>
        ensures { (spot : Spot) → Lists self.old self.new result (e.Finds spot value) }
    {
        self.note(LogEvent::Finds(value))
    }

    /// The `while` is left in the turn of this number.
    pub fn leave_loop(&mut self, turns: u32) -> Result<(), OutOfMemory>
        ensures { (spot : Spot) → Lists self.old self.new result (e.Leaves spot turns) }
    {
        self.note(LogEvent::Leaves(turns))
    }

    /// The `while` has made so many turns, all that its timeout allows.
    pub fn time_out(&mut self, turns: u32) -> Result<(), OutOfMemory>
        ensures { (spot : Spot) → Lists self.old self.new result (e.TimesOut spot turns) }
    {
        self.note(LogEvent::TimesOut(turns))
    }

    /// The poll found its value.
    pub fn end_poll(&mut self) -> Result<(), OutOfMemory>
        ensures { (spot : Spot) → Lists self.old self.new result (e.Matches spot) }
    {
        self.note(LogEvent::Matches)
    }

    /// The variable of this name has this value now.
    pub fn assign(&mut self, name: &'a str, value: u64) -> Result<(), OutOfMemory>
        ensures { Lists self.old self.new result (e.Assigns name.now value) }
    {
        self.note(LogEvent::Assigns(name, value))
    }

    /// A unit is made: its number from 1, the call, and how it ends, `None` where it is not answered.
    pub fn make(&mut self, number: u64, ask: &Ask, end: Option<Made>) -> Result<(), OutOfMemory>
        ensures { Lists self.old self.new result (e.Makes (record { number = number; ask = ask.now; end = option_map call_end_of end })) }
    {
        self.note(LogEvent::Makes(number, *ask, end))
    }

    /// A line is written, which ends with a line feed.
    pub fn write(&mut self, written: Line) -> Result<(), OutOfMemory>
        ensures { Lists self.old self.new result (e.Writes written) }
    {
        self.note(LogEvent::Writes(written))
    }

    /// The sequence of this name is called. `OutOfMemory` also where 2^32 - 1 sequences are called.
    pub fn call(&mut self, name: &'a str) -> Result<(), OutOfMemory>
        ensures { Lists self.old self.new result (e.Calls name.now) }
    {
        let Some(deeper) = self.depth.checked_add(1) else {
            return Err(OutOfMemory);
        };
        self.note(LogEvent::Calls(name))?;
        self.depth = deeper;
        Ok(())
    }

    /// The last sequence that was called, and has not returned, returns.
    pub fn return_back(&mut self) -> Result<(), OutOfMemory>
        ensures { Lists self.old self.new result e.Returns }
    {
        self.note(LogEvent::Returns)?;
        self.depth = self.depth.saturating_sub(1);
        Ok(())
    }
}
