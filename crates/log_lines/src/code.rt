//! Trees of code as text.
ghost use Rattle.std.specs.Prelude.{◌≡◌, ◌++◌, true, codes, IfOk};
ghost use Rattle.expr_grammar.specs.Tree.{tree, arg_tree, arg_trees, stmt_tree};
ghost use Rattle.log_lines.specs.CodeText.{arg_text, args_text, comma_text, expr_text, number_text, stmt_text};

use crate::marks::{binary_mark, unary_mark};
use dap_base::OutOfMemory;
use expr_grammar::{Arg, Expr, Stmt};
use std::alloc::Global;
use text_lines::Line;

// A number in code.
fn with_number(alloc: Global, line: Line, number: u64) -> Result<Line, OutOfMemory>
    ensures { IfOk result (λ l. l ≡ line ++ number_text number) }
{
    if number < 10 {
        line.decimal(number)
    } else {
        line.hex(alloc, number)
    }
}

// A comma before an argument, except the first.
fn with_comma(line: Line, is_first: bool) -> Result<Line, OutOfMemory>
    ensures { IfOk result (λ l. l ≡ line ++ comma_text is_first) }
{
    if is_first { Ok(line) } else { line.text(", ") }
}

// An expression between two texts.
#[cycle(code)]
fn with_between(
    alloc: Global,
    line: Line,
    before: &str,
    expr: &Expr,
    after: &str,
) -> Result<Line, OutOfMemory>
    ensures { IfOk result (λ l. l ≡ line ++ before.now ++ expr_text (tree expr.now) ++ after.now) }
{
    with_expr(alloc, line.text(before)?, expr)?.text(after)
}

// A call.
#[cycle(code)]
fn with_call(alloc: Global, line: Line, name: &str, args: &[Arg]) -> Result<Line, OutOfMemory>
    ensures { IfOk result (λ l. l ≡ line ++ name.now ++ codes "(" ++ args_text true (arg_trees args.now) ++ codes ")") }
{
    let line = line.text(name)?.text("(")?;
    with_args(alloc, line, args)?.text(")")
}

// An expression.
#[cycle(code)]
#[tactic(auto, unfolding(crate::specs::CodeText::expr_text))]
pub fn with_expr(alloc: Global, line: Line, expr: &Expr) -> Result<Line, OutOfMemory>
    ensures { IfOk result (λ l. l ≡ line ++ expr_text (tree expr.now)) }
{
    match expr {
        Expr::Number(number) => with_number(alloc, line, *number),
        Expr::Name(name) => line.text(name.text.as_str()),
        Expr::Group(inner) => with_between(alloc, line, "(", inner, ")"),
        Expr::Unary(op, operand) => with_between(alloc, line, unary_mark(*op), operand, ""),
        Expr::Binary(op, left, right) => {
            let line = with_expr(alloc, line, left)?;
            with_between(alloc, line, binary_mark(*op), right, "")
        }
        Expr::Cond(test, first, second) => {
            let line = with_expr(alloc, line, test)?;
            let line = with_between(alloc, line, " ? ", first, " : ")?;
            with_expr(alloc, line, second)
        }
        Expr::Assign(name, right) => {
            let line = line.text(name.text.as_str())?;
            with_between(alloc, line, " = ", right, "")
        }
        Expr::Call(called, args) => with_call(
            alloc,
            line,
            called.name.text.as_str(),
            args.as_slice(),
        ),
    }
}

// An argument.
#[cycle(code)]
#[tactic(auto, unfolding(crate::specs::CodeText::expr_text))]
fn with_arg(alloc: Global, line: Line, arg: &Arg) -> Result<Line, OutOfMemory>
    ensures { IfOk result (λ l. l ≡ line ++ arg_text (arg_tree arg.now)) }
{
    match arg {
        Arg::Number(_, expr) => with_expr(alloc, line, expr),
        Arg::Text(text) => line
            .text("\"")?
            .add_shown(text.text.as_str().as_bytes())?
            .text("\""),
    }
}

// Arguments, with commas between them.
#[cycle(code)]
fn with_args(alloc: Global, line: Line, args: &[Arg]) -> Result<Line, OutOfMemory>
    ensures { IfOk result (λ l. l ≡ line ++ args_text true (arg_trees args.now)) }
{
    let mut text = line;
    let mut is_first = true;
    for arg in args {
        text = with_arg(alloc, with_comma(text, is_first)?, arg)?;
        is_first = false;
    }
    Ok(text)
}

/// A statement, added to a line. `OutOfMemory` where memory is refused.
#[tactic(auto, unfolding(crate::specs::CodeText::stmt_text))]
pub fn with_statement(alloc: Global, line: Line, statement: &Stmt) -> Result<Line, OutOfMemory>
    ensures { IfOk result (λ l. l ≡ line ++ stmt_text (stmt_tree statement.now)) }
{
    match statement {
        Stmt::Empty(_) => line.text(";"),
        Stmt::Declare(name, expr) => {
            let line = line.text("__var ")?.text(name.text.as_str())?;
            with_between(alloc, line, " = ", expr, ";")
        }
        Stmt::Plain(_, expr) => with_between(alloc, line, "", expr, ";"),
    }
}
