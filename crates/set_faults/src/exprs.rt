//! All faults of an expression.
ghost use Rattle.std.specs.Prelude.{OnOk};
ghost use Rattle.expr_grammar.specs.Tree.{tree, arg_tree, arg_trees};
ghost use Rattle.code_check.specs.ExprFaults.{ExprFault, ArgFault, ArgsFault};
ghost use Rattle.code_check.specs.Views.{scope_view};
ghost use Rattle.set_faults.specs.Listed.{Adds};

use crate::calls::{add_call, add_name};
use crate::code_faults::CodeFaults;
use code_check::Scope;
use dap_base::OutOfMemory;
use expr_grammar::{Arg, Expr};

/// Adds the faults of an expression.
#[cycle(exprs)]
pub fn add_expr(scope: Scope<'_>, expr: &Expr, found: &mut CodeFaults) -> Result<(), OutOfMemory>
    ensures { OnOk result (Adds (ExprFault (scope_view scope.entry) (tree expr.now)) found.old found.new) }
{
    match expr {
        Expr::Number(_) => Ok(()),
        Expr::Name(name) => add_name(scope, name, found),
        Expr::Group(inner) => add_expr(scope, inner, found),
        Expr::Unary(_, operand) => add_expr(scope, operand, found),
        Expr::Binary(_, left, right) => {
            add_expr(scope, left, found)?;
            add_expr(scope, right, found)
        }
        Expr::Cond(test, first, second) => {
            add_expr(scope, test, found)?;
            add_expr(scope, first, found)?;
            add_expr(scope, second, found)
        }
        Expr::Assign(name, value) => {
            add_name(scope, name, found)?;
            add_expr(scope, value, found)
        }
        Expr::Call(called, args) => {
            add_call(scope, called, args.as_slice(), found)?;
            add_args(scope, args.as_slice(), found)
        }
    }
}

// Adds the faults inside an argument.
#[cycle(exprs)]
fn add_arg(scope: Scope<'_>, arg: &Arg, found: &mut CodeFaults) -> Result<(), OutOfMemory>
    ensures { OnOk result (Adds (ArgFault (scope_view scope.entry) (arg_tree arg.now)) found.old found.new) }
{
    match arg {
        Arg::Number(_, value) => add_expr(scope, value, found),
        Arg::Text(_) => Ok(()),
    }
}

// Adds the faults inside the arguments.
#[cycle(exprs)]
fn add_args(scope: Scope<'_>, args: &[Arg], found: &mut CodeFaults) -> Result<(), OutOfMemory>
    ensures { OnOk result (Adds (ArgsFault (scope_view scope.entry) (arg_trees args.now)) found.old found.new) }
{
    for arg in args {
        add_arg(scope, arg, found)?;
    }
    Ok(())
}
