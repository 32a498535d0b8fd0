//! The sequences that code names in its calls.
ghost use Rattle.std.specs.Prelude.{◌≡◌, ◌++◌, OnOk, option_map};
ghost use Rattle.expr_grammar.specs.Tree.{tree, arg_tree, arg_trees, stmt_tree, code_trees};
ghost use Rattle.sequence_trees.specs.Trees.{step_tree, steps_tree};
ghost use Rattle.run_coverage.specs.Reach.{own_name, tree_names, arg_names, args_names, statement_names, block_names, condition_names, step_names, steps_names};

use dap_base::{NameText, OutOfMemory, Words};
use expr_grammar::{Arg, Expr, Name, Stmt};
use sequence_rules::text_of;
use sequence_trees::CheckedStep;
use std::alloc::Global;

// Appends the sequence that a call itself names.
fn push_own(
    alloc: Global,
    called: &Name,
    args: &[Arg],
    names: &mut Words,
) -> Result<(), OutOfMemory>
    ensures { OnOk result (names.new ≡ names.old ++ own_name called.now (arg_trees args.now)) }
{
    if called.text.as_str() != "Sequence" {
        return Ok(());
    }
    names.push(NameText::new(alloc, text_of(args))?)
}

// Appends the sequences that an expression names, in the order of the text.
#[cycle(calls)]
fn push_expr(alloc: Global, expr: &Expr, names: &mut Words) -> Result<(), OutOfMemory>
    ensures { OnOk result (names.new ≡ names.old ++ tree_names (tree expr.now)) }
{
    match expr {
        Expr::Number(_) | Expr::Name(_) => Ok(()),
        Expr::Group(inner) => push_expr(alloc, inner, names),
        Expr::Unary(_, operand) => push_expr(alloc, operand, names),
        Expr::Binary(_, left, right) => {
            push_expr(alloc, left, names)?;
            push_expr(alloc, right, names)
        }
        Expr::Cond(test, first, second) => {
            push_expr(alloc, test, names)?;
            push_expr(alloc, first, names)?;
            push_expr(alloc, second, names)
        }
        Expr::Assign(_, value) => push_expr(alloc, value, names),
        Expr::Call(called, args) => {
            push_own(alloc, &called.name, args.as_slice(), names)?;
            push_args(alloc, args.as_slice(), names)
        }
    }
}

#[cycle(calls)]
fn push_arg(alloc: Global, arg: &Arg, names: &mut Words) -> Result<(), OutOfMemory>
    ensures { OnOk result (names.new ≡ names.old ++ arg_names (arg_tree arg.now)) }
{
    match arg {
        Arg::Number(_, value) => push_expr(alloc, value, names),
        Arg::Text(_) => Ok(()),
    }
}

#[cycle(calls)]
fn push_args(alloc: Global, args: &[Arg], names: &mut Words) -> Result<(), OutOfMemory>
    ensures { OnOk result (names.new ≡ names.old ++ args_names (arg_trees args.now)) }
{
    for arg in args {
        push_arg(alloc, arg, names)?;
    }
    Ok(())
}

fn push_statement(alloc: Global, statement: &Stmt, names: &mut Words) -> Result<(), OutOfMemory>
    ensures { OnOk result (names.new ≡ names.old ++ statement_names (stmt_tree statement.now)) }
{
    match statement {
        Stmt::Empty(_) => Ok(()),
        Stmt::Declare(_, value) => push_expr(alloc, value, names),
        Stmt::Plain(_, value) => push_expr(alloc, value, names),
    }
}

fn push_block(alloc: Global, code: &[Stmt], names: &mut Words) -> Result<(), OutOfMemory>
    ensures { OnOk result (names.new ≡ names.old ++ block_names (code_trees code.now)) }
{
    for statement in code {
        push_statement(alloc, statement, names)?;
    }
    Ok(())
}

fn push_condition(
    alloc: Global,
    condition: &Option<Expr>,
    names: &mut Words,
) -> Result<(), OutOfMemory>
    ensures { OnOk result (names.new ≡ names.old ++ condition_names (option_map tree condition.now)) }
{
    match condition {
        Some(condition) => push_expr(alloc, condition, names),
        None => Ok(()),
    }
}

#[cycle(step_names)]
fn push_step(alloc: Global, step: &CheckedStep, names: &mut Words) -> Result<(), OutOfMemory>
    ensures { OnOk result (names.new ≡ names.old ++ step_names (step_tree step.now)) }
{
    match step {
        CheckedStep::Block(code) => push_block(alloc, code.as_slice(), names),
        CheckedStep::Control {
            cond,
            repeat,
            timeout: _,
            steps,
        } => {
            push_condition(alloc, cond, names)?;
            push_condition(alloc, repeat, names)?;
            push_names(alloc, steps.as_slice(), names)
        }
    }
}

/// Appends the sequences that steps name in their calls, in the order of the text.
#[cycle(step_names)]
pub fn push_names(
    alloc: Global,
    steps: &[CheckedStep],
    names: &mut Words,
) -> Result<(), OutOfMemory>
    ensures { OnOk result (names.new ≡ names.old ++ steps_names (steps_tree steps.now)) }
{
    for step in steps {
        push_step(alloc, step, names)?;
    }
    Ok(())
}
