//! The first fault of an expression.
ghost use Rattle.std.specs.Prelude.{◌≡◌, map};
ghost use Rattle.expr_grammar.specs.Tree.{tree, arg_tree, arg_trees};
ghost use Rattle.code_check.specs.Order.{is_before};
ghost use Rattle.code_check.specs.First.{IsFirst};
ghost use Rattle.code_check.specs.Notes.{Notes};
ghost use Rattle.code_check.specs.ExprFaults.{ExprFault, ArgFault, ArgsFault};
ghost use Rattle.code_check.specs.Views.{scope_view};

use crate::calls::{note_call, note_name};
use crate::fault::CodeFault;
use crate::scope::Scope;
use expr_grammar::{Arg, Expr};

/// The first fault of an expression.
pub fn expr_fault(scope: Scope<'_>, expr: &Expr) -> Option<CodeFault>
    ensures { IsFirst is_before (ExprFault (scope_view scope.entry) (tree expr.now)) result }
{
    let mut found = None;
    note_expr(scope, expr, &mut found);
    found
}

/// Notes the first fault of an expression, unless the one that was found comes first.
#[cycle(exprs)]
pub fn note_expr(scope: Scope<'_>, expr: &Expr, found: &mut Option<CodeFault>)
    ensures { Notes (ExprFault (scope_view scope.entry) (tree expr.now)) found.old found.new }
{
    match expr {
        Expr::Number(_) => {}
        Expr::Name(name) => note_name(scope, name, found),
        Expr::Group(inner) => note_expr(scope, inner, found),
        Expr::Unary(_, operand) => note_expr(scope, operand, found),
        Expr::Binary(_, left, right) => {
            note_expr(scope, left, found);
            note_expr(scope, right, found);
        }
        Expr::Cond(test, first, second) => {
            note_expr(scope, test, found);
            note_expr(scope, first, found);
            note_expr(scope, second, found);
        }
        Expr::Assign(name, value) => {
            note_name(scope, name, found);
            note_expr(scope, value, found);
        }
        Expr::Call(called, args) => {
            note_call(scope, called, args.as_slice(), found);
            note_args(scope, args.as_slice(), found);
        }
    }
}

// Notes the first fault inside an argument.
#[cycle(exprs)]
fn note_arg(scope: Scope<'_>, arg: &Arg, found: &mut Option<CodeFault>)
    ensures { Notes (ArgFault (scope_view scope.entry) (arg_tree arg.now)) found.old found.new }
{
    match arg {
        Arg::Number(_, value) => note_expr(scope, value, found),
        Arg::Text(_) => {}
    }
}

// Notes the first fault inside the arguments.
#[cycle(exprs)]
fn note_args(scope: Scope<'_>, args: &[Arg], found: &mut Option<CodeFault>)
    ensures { Notes (ArgsFault (scope_view scope.entry) (arg_trees args.now)) found.old found.new }
{
    for arg in args {
        note_arg(scope, arg, found);
    }
}
