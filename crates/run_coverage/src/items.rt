//! What a run can cover.
ghost use Rattle.std.specs.Prelude.{◌≡◌, ◌++◌, ◌∷◌, [], false, OnOk, option_map};
ghost use Rattle.expr_grammar.specs.Tree.{tree, stmt_tree, code_trees};
ghost use Rattle.sequence_trees.specs.Trees.{step_tree, steps_tree};
ghost use Rattle.run_events.specs.OfSteps.{statement_place};
ghost use Rattle.seq_check.specs.Answers.{checked_trees};
ghost use Rattle.run_coverage.specs.Items.{statement_items, block_items, if_items, while_items, step_items, steps_items, sequence_items};

use crate::words::{if_words, statement_words, while_words};
use dap_base::{ItemList, OutOfMemory, Place};
use expr_grammar::{Expr, Stmt};
use seq_check::Checked;
use sequence_trees::{CheckedStep, inner_path};
use std::alloc::Global;
use text_lines::Line;

/// What a run can cover.
#[derive(Drop)]
pub struct Item {
    /// Whether it is that a statement runs, or else what happens at a condition.
    pub is_statement: bool,
    /// It in words.
    pub words: Line,
}

/// Where a statement begins: a declaration at the name.
pub fn place_of(statement: &Stmt) -> Place
    ensures { result ≡ statement_place (stmt_tree statement.now) }
{
    match statement {
        Stmt::Empty(at) | Stmt::Plain(at, _) => *at,
        Stmt::Declare(name, _) => name.at,
    }
}

fn push_statement(
    alloc: Global,
    sequence: &str,
    path: &[u64],
    statement: &Stmt,
    items: &mut ItemList<Item>,
) -> Result<(), OutOfMemory>
    ensures { OnOk result (items.new ≡ items.old ++ statement_items sequence.now path.now (stmt_tree statement.now)) }
{
    if matches!(statement, Stmt::Empty(_)) {
        return Ok(());
    }
    let words = statement_words(alloc, sequence, path, place_of(statement))?;
    items.push(Item {
        is_statement: true,
        words,
    })
}

fn push_block(
    alloc: Global,
    sequence: &str,
    path: &[u64],
    code: &[Stmt],
    items: &mut ItemList<Item>,
) -> Result<(), OutOfMemory>
    ensures { OnOk result (items.new ≡ items.old ++ block_items sequence.now path.now (code_trees code.now)) }
{
    for statement in code {
        push_statement(alloc, sequence, path, statement, items)?;
    }
    Ok(())
}

// Appends the two ways that a condition goes.
fn push_ways(first: Line, second: Line, items: &mut ItemList<Item>) -> Result<(), OutOfMemory>
    ensures { OnOk result (items.new ≡ items.old ++ record { is_statement = false; words = first } ∷ record { is_statement = false; words = second } ∷ []) }
{
    items.push(Item {
        is_statement: false,
        words: first,
    })?;
    items.push(Item {
        is_statement: false,
        words: second,
    })
}

fn push_if(
    alloc: Global,
    sequence: &str,
    path: &[u64],
    cond: &Option<Expr>,
    items: &mut ItemList<Item>,
) -> Result<(), OutOfMemory>
    ensures { OnOk result (items.new ≡ items.old ++ if_items sequence.now path.now (option_map tree cond.now)) }
{
    if cond.is_none() {
        return Ok(());
    }
    let taken = if_words(alloc, "taken ", sequence, path)?;
    let skipped = if_words(alloc, "skipped ", sequence, path)?;
    push_ways(taken, skipped, items)
}

fn push_while(
    alloc: Global,
    sequence: &str,
    path: &[u64],
    repeat: &Option<Expr>,
    items: &mut ItemList<Item>,
) -> Result<(), OutOfMemory>
    ensures { OnOk result (items.new ≡ items.old ++ while_items sequence.now path.now (option_map tree repeat.now)) }
{
    if repeat.is_none() {
        return Ok(());
    }
    let left = while_words(alloc, "left ", sequence, path)?;
    let timed_out = while_words(alloc, "timed out ", sequence, path)?;
    push_ways(left, timed_out, items)
}

// Appends what a run can cover in the step at the path.
#[cycle(items)]
fn push_step(
    alloc: Global,
    sequence: &str,
    path: &[u64],
    step: &CheckedStep,
    items: &mut ItemList<Item>,
) -> Result<(), OutOfMemory>
    ensures { OnOk result (items.new ≡ items.old ++ step_items sequence.now path.now (step_tree step.now)) }
{
    match step {
        CheckedStep::Block(code) => push_block(alloc, sequence, path, code.as_slice(), items),
        CheckedStep::Control {
            cond,
            repeat,
            timeout: _,
            steps,
        } => {
            push_if(alloc, sequence, path, cond, items)?;
            push_while(alloc, sequence, path, repeat, items)?;
            push_steps(alloc, sequence, path, steps.as_slice(), items)
        }
    }
}

// Appends what a run can cover in the steps inside the one at the path.
#[cycle(items)]
fn push_steps(
    alloc: Global,
    sequence: &str,
    path: &[u64],
    steps: &[CheckedStep],
    items: &mut ItemList<Item>,
) -> Result<(), OutOfMemory>
    ensures { OnOk result (items.new ≡ items.old ++ steps_items sequence.now path.now 0 (steps_tree steps.now)) }
{
    for (number, step) in steps.iter().enumerate() {
        let inner = inner_path(alloc, path, number as u64)?;
        push_step(alloc, sequence, inner.as_slice(), step, items)?;
    }
    Ok(())
}

/// Appends what a run can cover in the sequence of the name, in the order of the text.
pub fn push_items(
    alloc: Global,
    checked: &Checked,
    name: &str,
    items: &mut ItemList<Item>,
) -> Result<(), OutOfMemory>
    ensures { OnOk result (items.new ≡ items.old ++ sequence_items (checked_trees checked.now) name.now) }
{
    match checked.steps(name) {
        Some(steps) => push_steps(alloc, name, &[], steps.as_slice(), items),
        None => Ok(()),
    }
}
