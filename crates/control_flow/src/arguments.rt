//! The arguments of calls that are one number or two.
ghost use Rattle.std.specs.Prelude.{IfSome};
ghost use Rattle.expr_grammar.specs.Tree.{arg_tree, arg_trees, tree};
ghost use Rattle.control_flow.specs.Calls.{AreTwo, IsExpressionArgument, IsOne};

use expr_grammar::{Arg, Expr};

// The expression of an argument, where it is no text.
fn number_in(arg: &Arg) -> Option<&Expr>
    ensures { IfSome result (λ expr. IsExpressionArgument (arg_tree arg.now) (tree expr.now)) }
{
    match arg {
        Arg::Number(_, expr) => Some(expr),
        Arg::Text(_) => None,
    }
}

// The expression of the only argument, where it is no text.
pub(crate) fn only_number(args: &[Arg]) -> Option<&Expr>
    ensures { IfSome result (λ only. IsOne (arg_trees args.now) (tree only.now)) }
{
    match args {
        [only] => number_in(only),
        _ => None,
    }
}

// The expressions of two arguments, where none is a text and there are no more.
pub(crate) fn both_numbers(args: &[Arg]) -> Option<(&Expr, &Expr)>
    ensures { IfSome result (λ both. AreTwo (arg_trees args.now) (tree both.0.now) (tree both.1.now)) }
{
    let [first, second] = args else {
        return None;
    };
    let first = number_in(first)?;
    let second = number_in(second)?;
    Some((first, second))
}
