//! Which loops are one unit, a poll of CTRL/STAT.

ghost use Rattle.std.specs.Prelude.{◌≡◌, ℕ};
ghost use Rattle.expr_grammar.specs.Tree.{tree, arg_tree, arg_trees};
ghost use Rattle.sequence_trees.specs.Trees.{steps_tree};
ghost use Rattle.sequence_rules.specs.Polls as spec;

use expr_grammar::{Arg, BinaryOp, Expr};
use sequence_trees::CheckedStep;

// The expression in groups of parentheses.
fn strip_groups(expr: &Expr) -> &Expr
    ensures { tree result.now ≡ spec.ungrouped_tree (tree expr.now) }
{
    match expr {
        Expr::Group(inner) => strip_groups(inner),
        _ => expr,
    }
}

// A literal of at most 32 bits.
fn word_of(expr: &Expr) -> Option<u32>
    ensures { result ≡ spec.word_of (tree expr.now) }
{
    match expr {
        Expr::Number(number) => u32::try_from(*number).ok(),
        _ => None,
    }
}

// The literal 4.
fn is_four(expr: &Expr) -> bool
    ensures { result ≡ spec.is_four (tree expr.now) }
{
    match expr {
        Expr::Number(number) => *number == 4,
        _ => false,
    }
}

// The argument is the literal 4.
fn is_four_arg(arg: &Arg) -> bool
    ensures { result ≡ spec.is_four_arg (Some (arg_tree arg.now)) }
{
    match arg {
        Arg::Number(_, expr) => is_four(strip_groups(expr)),
        Arg::Text(_) => false,
    }
}

// The one argument of a call is the literal 4.
fn has_only_four(args: &[Arg]) -> bool
    ensures { result ≡ spec.is_four_arg (spec.only_arg (arg_trees args.now)) }
{
    match args {
        [] => false,
        [arg] => is_four_arg(arg),
        [_, _, ..] => false,
    }
}

// `ReadDP(0x4)`.
fn reads_ctrl_stat(expr: &Expr) -> bool
    ensures { result ≡ spec.reads_ctrl_stat (tree expr.now) }
{
    match expr {
        Expr::Call(called, args) => {
            called.name.text.as_str() == "ReadDP" && has_only_four(args.as_slice())
        }
        _ => false,
    }
}

// The mask of `ReadDP(0x4) & MASK`.
fn mask_of(expr: &Expr) -> Option<u32>
    ensures { result ≡ spec.mask_of (tree expr.now) }
{
    match expr {
        Expr::Binary(BinaryOp::BitAnd, left, right) => {
            if reads_ctrl_stat(strip_groups(left)) {
                word_of(strip_groups(right))
            } else {
                None
            }
        }
        _ => None,
    }
}

// The mask and the value of `(ReadDP(0x4) & MASK) != VALUE`.
fn poll_form(expr: &Expr) -> Option<(u32, u32)>
    ensures { result ≡ spec.poll_form (tree expr.now) }
{
    match expr {
        Expr::Binary(BinaryOp::Ne, left, right) => {
            match (mask_of(strip_groups(left)), word_of(strip_groups(right))) {
                (Some(mask), Some(value)) => Some((mask, value)),
                _ => None,
            }
        }
        _ => None,
    }
}

/// The mask and the value of a `while` with these steps, where the control is a poll. It has no steps then. Its condition is
/// `(ReadDP(0x4) & MASK) != VALUE` with literals of at most 32 bits, apart from groups of parentheses.
pub fn poll_of(expr: &Expr, steps: &[CheckedStep]) -> Option<(u32, u32)>
    ensures { result ≡ spec.poll_of (tree expr.now) (steps_tree steps.now) }
{
    match steps {
        [] => poll_form(strip_groups(expr)),
        _ => None,
    }
}
