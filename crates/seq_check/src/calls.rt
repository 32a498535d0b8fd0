//! The calls of sequences in a text.
ghost use Rattle.std.specs.Prelude.{◌≡◌, ◌++◌, OnOk, length, option_map};
ghost use Rattle.expr_grammar.specs.Tree.{tree, arg_tree, arg_trees, stmt_tree, code_trees};
ghost use Rattle.seq_check.specs.Calls.{number_of, own_calls, expr_calls, arg_calls, args_calls, statement_calls, block_calls, condition_calls};

use code_check::{Names, text_at};
use dap_base::{ItemList, OutOfMemory, Place};
use expr_grammar::{Arg, Expr, Name, Stmt};

/// A call of a sequence in a text.
#[derive(Clone, Copy, Debug, PartialEq, Eq)]
pub struct TextCall {
    /// The place of the called name.
    pub place: Place,
    /// The number of the sequence that is called, counted from 0.
    pub callee: usize,
}

fn number_of(names: &Names, name: &str) -> usize
    ensures { result ≡ number_of names.now name.now }
{
    match names.place_of(name) {
        Some(number) => number,
        None => names.len(),
    }
}

// Appends the call that a call of a function is, if it is one of a sequence.
fn push_own(
    names: &Names,
    called: &Name,
    args: &[Arg],
    calls: &mut ItemList<TextCall>,
) -> Result<(), OutOfMemory>
    ensures { OnOk result (calls.new ≡ calls.old ++ own_calls names.now called.now (arg_trees args.now)) }
{
    if called.text.as_str() != "Sequence" {
        return Ok(());
    }
    match text_at(args, 0) {
        Some(text) => calls.push(TextCall {
            place: called.at,
            callee: number_of(names, text.text.as_str()),
        }),
        None => Ok(()),
    }
}

// Appends the calls of an expression, in the order of the text.
#[cycle(calls)]
fn push_expr(names: &Names, expr: &Expr, calls: &mut ItemList<TextCall>) -> Result<(), OutOfMemory>
    ensures { OnOk result (calls.new ≡ calls.old ++ expr_calls names.now (tree expr.now)) }
{
    match expr {
        Expr::Number(_) | Expr::Name(_) => Ok(()),
        Expr::Group(inner) => push_expr(names, inner, calls),
        Expr::Unary(_, operand) => push_expr(names, operand, calls),
        Expr::Binary(_, left, right) => {
            push_expr(names, left, calls)?;
            push_expr(names, right, calls)
        }
        Expr::Cond(test, first, second) => {
            push_expr(names, test, calls)?;
            push_expr(names, first, calls)?;
            push_expr(names, second, calls)
        }
        Expr::Assign(_, value) => push_expr(names, value, calls),
        Expr::Call(called, args) => {
            push_own(names, &called.name, args.as_slice(), calls)?;
            push_args(names, args.as_slice(), calls)
        }
    }
}

#[cycle(calls)]
fn push_arg(names: &Names, arg: &Arg, calls: &mut ItemList<TextCall>) -> Result<(), OutOfMemory>
    ensures { OnOk result (calls.new ≡ calls.old ++ arg_calls names.now (arg_tree arg.now)) }
{
    match arg {
        Arg::Number(_, value) => push_expr(names, value, calls),
        Arg::Text(_) => Ok(()),
    }
}

#[cycle(calls)]
fn push_args(names: &Names, args: &[Arg], calls: &mut ItemList<TextCall>) -> Result<(), OutOfMemory>
    ensures { OnOk result (calls.new ≡ calls.old ++ args_calls names.now (arg_trees args.now)) }
{
    for arg in args {
        push_arg(names, arg, calls)?;
    }
    Ok(())
}

fn push_statement(
    names: &Names,
    statement: &Stmt,
    calls: &mut ItemList<TextCall>,
) -> Result<(), OutOfMemory>
    ensures { OnOk result (calls.new ≡ calls.old ++ statement_calls names.now (stmt_tree statement.now)) }
{
    match statement {
        Stmt::Empty(_) => Ok(()),
        Stmt::Declare(_, value) => push_expr(names, value, calls),
        Stmt::Plain(_, value) => push_expr(names, value, calls),
    }
}

/// Appends the calls of statements, in the order of the text.
pub fn push_block(
    names: &Names,
    code: &[Stmt],
    calls: &mut ItemList<TextCall>,
) -> Result<(), OutOfMemory>
    ensures { OnOk result (calls.new ≡ calls.old ++ block_calls names.now (code_trees code.now)) }
{
    for statement in code {
        push_statement(names, statement, calls)?;
    }
    Ok(())
}

/// Appends the calls of a condition, in the order of the text.
pub fn push_condition(
    names: &Names,
    condition: &Option<Expr>,
    calls: &mut ItemList<TextCall>,
) -> Result<(), OutOfMemory>
    ensures { OnOk result (calls.new ≡ calls.old ++ condition_calls names.now (option_map tree condition.now)) }
{
    match condition {
        Some(condition) => push_expr(names, condition, calls),
        None => Ok(()),
    }
}
