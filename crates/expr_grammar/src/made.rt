//! Expressions made of their parts.

ghost use Rattle.std.specs.Prelude.{◌≡◌, IfOk, OnOk, OnErr, ◌++◌, ◌∷◌, [], map};
ghost use Rattle.expr_grammar.specs.Tree as trees;
ghost use Rattle.expr_grammar.specs.Tree.{tree, arg_tree, arg_trees, stmt_tree};

use crate::code::{Arg, Args, BinaryOp, CalledName, Expr, Name, Stmt, TextArg, UnaryOp};
use dap_base::{OutOfMemory, Place};
use function_table::function_of;
use std::alloc::Global;

fn box_expr(alloc: Global, e: Expr) -> Result<Box<Expr>, OutOfMemory>
    ensures { IfOk result (λ b. tree b.value ≡ tree e) }
{
    Box::new(alloc, e).map_err(|_| OutOfMemory)
}

pub fn number(n: u64) -> Expr
    ensures { tree result ≡ trees.Number n }
{
    Expr::Number(n)
}

pub fn make_name(name: Box<Name>) -> Expr
    ensures { tree result ≡ trees.Named name.value }
{
    Expr::Name(name)
}

pub fn group(alloc: Global, a: Expr) -> Result<Expr, OutOfMemory>
    ensures { IfOk result (λ e. tree e ≡ trees.Group (tree a)) }
{
    Ok(Expr::Group(box_expr(alloc, a)?))
}

pub fn unary(alloc: Global, op: UnaryOp, a: Expr) -> Result<Expr, OutOfMemory>
    ensures { IfOk result (λ e. tree e ≡ trees.Unary op (tree a)) }
{
    Ok(Expr::Unary(op, box_expr(alloc, a)?))
}

pub fn binary(alloc: Global, op: BinaryOp, a: Expr, b: Expr) -> Result<Expr, OutOfMemory>
    ensures { IfOk result (λ e. tree e ≡ trees.Binary op (tree a) (tree b)) }
{
    Ok(Expr::Binary(op, box_expr(alloc, a)?, box_expr(alloc, b)?))
}

pub fn choice(alloc: Global, test: Expr, a: Expr, b: Expr) -> Result<Expr, OutOfMemory>
    ensures { IfOk result (λ e. tree e ≡ trees.Cond (tree test) (tree a) (tree b)) }
{
    Ok(Expr::Cond(
        box_expr(alloc, test)?,
        box_expr(alloc, a)?,
        box_expr(alloc, b)?,
    ))
}

pub fn assignment(alloc: Global, name: Box<Name>, a: Expr) -> Result<Expr, OutOfMemory>
    ensures { IfOk result (λ e. tree e ≡ trees.Assign name.value (tree a)) }
{
    Ok(Expr::Assign(name, box_expr(alloc, a)?))
}

pub fn call(alloc: Global, name: Name, args: Args) -> Result<Expr, OutOfMemory>
    ensures { IfOk result (λ e. tree e ≡ trees.Call name (arg_trees args)) }
{
    let function = function_of(name.text.as_str());
    match Box::new(alloc, CalledName { function, name }) {
        Ok(called) => Ok(Expr::Call(called, args)),
        Err(_) => Err(OutOfMemory),
    }
}

pub fn expr_arg(at: Place, e: Expr) -> Arg
    ensures { arg_tree result ≡ trees.ExprArg at (tree e) }
{
    Arg::Number(at, e)
}

pub fn text_arg(text: Box<TextArg>) -> Arg
    ensures { arg_tree result ≡ trees.TextArg text.value }
{
    Arg::Text(text)
}

pub fn make_empty(at: Place) -> Stmt
    ensures { stmt_tree result ≡ trees.Empty at }
{
    Stmt::Empty(at)
}

pub fn declaration(name: Box<Name>, value: Expr) -> Stmt
    ensures { stmt_tree result ≡ trees.Declare name.value (tree value) }
{
    Stmt::Declare(name, value)
}

pub fn make_plain(at: Place, value: Expr) -> Stmt
    ensures { stmt_tree result ≡ trees.Plain at (tree value) }
{
    Stmt::Plain(at, value)
}
