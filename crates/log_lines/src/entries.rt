//! What a log holds of an event until its line is written.
ghost use Rattle.std.specs.Prelude.{◌≡◌, ◌++◌, codes, flat_map, option_map, IfOk, OnOk};
ghost use Rattle.direct_calls.specs.Made.{call_end_of};
ghost use Rattle.expr_grammar.specs.Tree.{tree, stmt_tree};
ghost use Rattle.sequence_trees.specs.declared.spot.Part.{Part};
ghost use Rattle.sequence_trees.specs.declared.spot.Part.TheVariants as part;
ghost use Rattle.run_events.specs.Events as e;
ghost use Rattle.run_events.specs.OfSteps.{statement_place};
ghost use Rattle.log_lines.specs.Entries.{log_entry_line, no_spot};
ghost use Rattle.log_lines.specs.LogText.{event_line, margin};
ghost use Rattle.log_lines.specs.Places.{condition_spot, debug_spot, spot_in_step, spot_words};

use crate::code::{with_expr, with_statement};
use crate::lines::{begin_below, begin_line, chosen_text, with_loop, with_turns};
use crate::places::{with_debug_spot, with_spot_in};
use crate::units::with_made;
use dap_base::{OutOfMemory, Place};
use direct_calls::Made;
use expr_grammar::{Expr, Stmt};
use sequence_trees::Part;
use smallvec::SmallVec;
use std::alloc::Global;
use target_calls::Ask;
use text_lines::Line;

/// A step of a sequence. A path of up to four numbers is held without an allocation.
#[derive(Drop)]
pub struct EventStep<'a> {
    pub sequence: &'a str,
    pub path: SmallVec<u64, 4>,
}

/// An event, with the names and the trees that it is of borrowed from the set.
#[derive(Drop)]
pub enum LogEvent<'a> {
    /// A statement of a block begins.
    Begins(EventStep<'a>, &'a Stmt),
    /// A declaration of the debug variables begins.
    Declares(&'a Stmt),
    /// The `if` of a control begins.
    Tests(EventStep<'a>, &'a Expr),
    /// The `if` has this value.
    Chooses(u64),
    /// A `while` begins, with so many turns until its timeout.
    Loops(EventStep<'a>, &'a Expr, u32),
    /// The turn of this number begins.
    Turns(u32),
    /// The `while` has this value.
    Finds(u64),
    /// The `while` is left in the turn of this number.
    Leaves(u32),
    /// The `while` has made so many turns, all that its timeout allows.
    TimesOut(u32),
    /// The poll found its value.
    Matches,
    /// The variable of this name has this value now.
    Assigns(&'a str, u64),
    /// A unit is made: its number from 1, the call, and how it ends.
    Makes(u64, Ask, Option<Made>),
    /// A line is written.
    Writes(Line),
    /// The sequence of this name is called.
    Calls(&'a str),
    /// A sequence returns.
    Returns,
}

/// An event, and how many sequences are called where it is noted.
#[derive(Drop)]
pub struct LogEntry<'a> {
    pub depth: u32,
    pub event: LogEvent<'a>,
}

// The start of a text.
const TEXT_START: Place = Place { line: 1, column: 1 };

// Where a statement begins: a declaration at its name.
fn place_of(statement: &Stmt) -> Place
    ensures { result ≡ statement_place (stmt_tree statement.now) }
{
    match statement {
        Stmt::Empty(at) => *at,
        Stmt::Declare(name, _) => name.at,
        Stmt::Plain(at, _) => *at,
    }
}

// A line that begins with a place in a step, and two blanks.
fn begin_at(
    alloc: Global,
    depth: u32,
    step: &EventStep,
    part: Part,
    place: Place,
) -> Result<Line, OutOfMemory>
    ensures { IfOk result (λ l. l ≡ margin depth ++ spot_words (spot_in_step step.now.sequence.now step.now.path.items part place) ++ codes "  ") }
{
    let line = begin_line(alloc, depth)?;
    with_spot_in(line, step.sequence, step.path.as_slice(), part, place)?.text("  ")
}

// A statement of a block.
fn begin_text(
    alloc: Global,
    depth: u32,
    step: &EventStep,
    statement: &Stmt,
) -> Result<Line, OutOfMemory>
    ensures { IfOk result (λ l. l
        ≡ event_line depth
        (e.Begins (spot_in_step step.now.sequence.now step.now.path.items part.Block (statement_place (stmt_tree statement.now))) (stmt_tree statement.now))) }
{
    let line = begin_at(alloc, depth, step, Part::Block, place_of(statement))?;
    with_statement(alloc, line, statement)?.text("\n")
}

// A declaration of the debug variables.
fn declare_text(alloc: Global, depth: u32, statement: &Stmt) -> Result<Line, OutOfMemory>
    ensures { IfOk result (λ l. l ≡ event_line depth (e.Begins (debug_spot (statement_place (stmt_tree statement.now))) (stmt_tree statement.now))) }
{
    let line = with_debug_spot(begin_line(alloc, depth)?, place_of(statement))?;
    with_statement(alloc, line.text("  ")?, statement)?.text("\n")
}

// An `if`.
fn test_text(alloc: Global, depth: u32, step: &EventStep, expr: &Expr) -> Result<Line, OutOfMemory>
    ensures { IfOk result (λ l. l ≡ event_line depth (e.Tests (condition_spot step.now.sequence.now step.now.path.items part.If) (tree expr.now))) }
{
    let line = begin_at(alloc, depth, step, Part::If, TEXT_START)?;
    with_expr(alloc, line, expr)?.text("\n")
}

// The value of an `if`.
fn choose_text(alloc: Global, depth: u32, value: u64) -> Result<Line, OutOfMemory>
    ensures { IfOk result (λ l. l ≡ event_line depth (e.Chooses no_spot value)) }
{
    let line = begin_below(alloc, depth)?.text("-> ")?;
    line.hex(alloc, value)?.text(chosen_text(value))?.text("\n")
}

// A `while`.
fn loop_text(
    alloc: Global,
    depth: u32,
    step: &EventStep,
    expr: &Expr,
    turns: u32,
) -> Result<Line, OutOfMemory>
    ensures { IfOk result (λ l. l ≡ event_line depth (e.Loops (condition_spot step.now.sequence.now step.now.path.items part.While) (tree expr.now) turns)) }
{
    let line = begin_at(alloc, depth, step, Part::While, TEXT_START)?;
    with_loop(alloc, line, expr, turns)?.text("\n")
}

// A turn that begins.
fn turn_text(alloc: Global, depth: u32, number: u32) -> Result<Line, OutOfMemory>
    ensures { IfOk result (λ l. l ≡ event_line depth (e.Turns no_spot number)) }
{
    let line = begin_below(alloc, depth)?;
    line.add_labelled("turn ", u64::from(number))?.text("\n")
}

// The value of a `while`.
fn find_text(alloc: Global, depth: u32, value: u64) -> Result<Line, OutOfMemory>
    ensures { IfOk result (λ l. l ≡ event_line depth (e.Finds no_spot value)) }
{
    let line = begin_below(alloc, depth)?.text("-> ")?;
    line.hex(alloc, value)?.text("\n")
}

// A `while` that is left.
fn leave_text(alloc: Global, depth: u32, turns: u32) -> Result<Line, OutOfMemory>
    ensures { IfOk result (λ l. l ≡ event_line depth (e.Leaves no_spot turns)) }
{
    let line = begin_below(alloc, depth)?.text("left after ")?;
    with_turns(line, turns)?.text("\n")
}

// A `while` that has made all its turns.
fn timeout_text(alloc: Global, depth: u32, turns: u32) -> Result<Line, OutOfMemory>
    ensures { IfOk result (λ l. l ≡ event_line depth (e.TimesOut no_spot turns)) }
{
    let line = begin_below(alloc, depth)?.text("TIMEOUT after ")?;
    with_turns(line, turns)?.text("\n")
}

// A poll that found its value.
fn match_text(alloc: Global, depth: u32) -> Result<Line, OutOfMemory>
    ensures { IfOk result (λ l. l ≡ event_line depth (e.Matches no_spot)) }
{
    begin_below(alloc, depth)?.text("matched")?.text("\n")
}

// A value of a variable.
fn assign_text(alloc: Global, depth: u32, name: &str, value: u64) -> Result<Line, OutOfMemory>
    ensures { IfOk result (λ l. l ≡ event_line depth (e.Assigns name.now value)) }
{
    let line = begin_below(alloc, depth)?.text(name)?.text(" = ")?;
    line.hex(alloc, value)?.text("\n")
}

// A unit.
fn make_text(
    alloc: Global,
    depth: u32,
    number: u64,
    ask: &Ask,
    end: Option<Made>,
) -> Result<Line, OutOfMemory>
    ensures { IfOk result (λ l. l ≡ event_line depth (e.Makes (record { number = number; ask = ask.now; end = option_map call_end_of end }))) }
{
    let line = begin_below(alloc, depth)?;
    with_made(alloc, line, number, ask, end)?.text("\n")
}

// A call of a sequence.
fn call_text(alloc: Global, depth: u32, name: &str) -> Result<Line, OutOfMemory>
    ensures { IfOk result (λ l. l ≡ event_line depth (e.Calls name.now)) }
{
    let line = begin_below(alloc, depth)?.text("call ")?;
    line.add_shown(name.as_bytes())?.text("\n")
}

// A return.
fn return_text(alloc: Global, depth: u32) -> Result<Line, OutOfMemory>
    ensures { IfOk result (λ l. l ≡ event_line depth e.Returns) }
{
    begin_below(alloc, depth.saturating_sub(1))?
        .text("return")?
        .text("\n")
}

// Adds a line to a text.
fn push(text: &mut Vec<u8>, line: &Line) -> Result<(), OutOfMemory>
    ensures { OnOk result (text.new.items ≡ text.old.items ++ line.now) }
{
    text.extend_from_slice(line.as_bytes())
        .map_err(|_| OutOfMemory)
}

// A line that a sequence writes.
fn push_written(
    alloc: Global,
    text: &mut Vec<u8>,
    depth: u32,
    written: &Line,
) -> Result<(), OutOfMemory>
    ensures { OnOk result (text.new.items ≡ text.old.items ++ event_line depth (e.Writes written.now)) }
{
    push(text, &begin_below(alloc, depth)?)?;
    push(text, written)
}

// Adds the line of an event to a text.
fn push_entry(alloc: Global, text: &mut Vec<u8>, entry: &LogEntry) -> Result<(), OutOfMemory>
    ensures { OnOk result (text.new.items ≡ text.old.items ++ log_entry_line entry.now) }
{
    let depth = entry.depth;
    match &entry.event {
        LogEvent::Begins(step, code) => push(text, &begin_text(alloc, depth, step, code)?),
        LogEvent::Declares(code) => push(text, &declare_text(alloc, depth, code)?),
        LogEvent::Tests(step, expr) => push(text, &test_text(alloc, depth, step, expr)?),
        LogEvent::Chooses(value) => push(text, &choose_text(alloc, depth, *value)?),
        LogEvent::Loops(step, expr, turns) => {
            push(text, &loop_text(alloc, depth, step, expr, *turns)?)
        }
        LogEvent::Turns(number) => push(text, &turn_text(alloc, depth, *number)?),
        LogEvent::Finds(value) => push(text, &find_text(alloc, depth, *value)?),
        LogEvent::Leaves(turns) => push(text, &leave_text(alloc, depth, *turns)?),
        LogEvent::TimesOut(turns) => push(text, &timeout_text(alloc, depth, *turns)?),
        LogEvent::Matches => push(text, &match_text(alloc, depth)?),
        LogEvent::Assigns(name, value) => push(text, &assign_text(alloc, depth, name, *value)?),
        LogEvent::Makes(number, ask, end) => {
            push(text, &make_text(alloc, depth, *number, ask, *end)?)
        }
        LogEvent::Writes(written) => push_written(alloc, text, depth, written),
        LogEvent::Calls(name) => push(text, &call_text(alloc, depth, name)?),
        LogEvent::Returns => push(text, &return_text(alloc, depth)?),
    }
}

/// The lines of events, one after the other. `OutOfMemory` where memory is refused.
pub fn entries_text(alloc: Global, entries: &[LogEntry]) -> Result<Vec<u8>, OutOfMemory>
    ensures { IfOk result (λ text. text.items ≡ flat_map log_entry_line entries.now) }
{
    let mut text = Vec::new(alloc);
    for entry in entries {
        push_entry(alloc, &mut text, entry)?;
    }
    Ok(text)
}
