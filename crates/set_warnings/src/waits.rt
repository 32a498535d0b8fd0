//! Waits by a name, and long waits.
ghost use Rattle.std.specs.Prelude.{◌≡◌, ◌++◌, OnOk, Some, option_map};
ghost use Rattle.expr_grammar.specs.Tree.{tree, arg_tree, arg_trees};
ghost use Rattle.sequence_trees.specs.Trees.{steps_tree};
ghost use Rattle.sequence_rules.specs.Polls.{ungrouped_tree, only_arg};
ghost use Rattle.set_warnings.specs.Sites.{part_at};
ghost use Rattle.set_warnings.specs.Waits as spec;

use crate::site::{PartSite, add_warning};
use crate::warning::{Warning, WarningKind};
use dap_base::{ItemList, OutOfMemory, Place};
use expr_grammar::{Arg, BinaryOp, Expr, Name};
use sequence_rules::{MOST_UNITS, turn_count};
use sequence_trees::CheckedStep;
use std::alloc::Global;

// The microseconds of a turn, where a job names none.
const TURN_US: u32 = 10;

// A form that is there, and the first name in it.
type FirstName<'a> = Option<Option<&'a Name>>;

// The expression in groups of parentheses.
fn strip_groups(expr: &Expr) -> &Expr
    ensures { tree result.now ≡ ungrouped_tree (tree expr.now) }
{
    match expr {
        Expr::Group(inner) => strip_groups(inner),
        _ => expr,
    }
}

// The literal 4, or a name.
fn four_form(expr: &Expr) -> FirstName<'_>
    ensures { option_map (option_map (λ n. n.now)) result ≡ spec.four_form (tree expr.now) }
{
    match expr {
        Expr::Name(name) => Some(Some(name)),
        Expr::Number(4) => Some(None),
        _ => None,
    }
}

// A literal of at most 32 bits, or a name.
fn word_form(expr: &Expr) -> FirstName<'_>
    ensures { option_map (option_map (λ n. n.now)) result ≡ spec.word_form (tree expr.now) }
{
    match expr {
        Expr::Name(name) => Some(Some(name)),
        Expr::Number(0..=0xffff_ffff) => Some(None),
        _ => None,
    }
}

// The first name of two forms, one after the other.
fn both_forms<'a>(first: FirstName<'a>, second: FirstName<'a>) -> FirstName<'a>
    ensures { option_map (option_map (λ n. n.now)) result ≡ spec.both_forms (option_map (option_map (λ n. n.now)) first.entry) (option_map (option_map (λ n. n.now)) second.entry) }
{
    match (first, second) {
        (Some(Some(name)), Some(_)) => Some(Some(name)),
        (Some(None), Some(second)) => Some(second),
        _ => None,
    }
}

// An argument, as the address.
fn arg_form(arg: &Arg) -> FirstName<'_>
    ensures { option_map (option_map (λ n. n.now)) result ≡ spec.address_form (Some (arg_tree arg.now)) }
{
    match arg {
        Arg::Number(_, expr) => four_form(strip_groups(expr)),
        Arg::Text(_) => None,
    }
}

// The only argument, as the address.
fn address_form(args: &[Arg]) -> FirstName<'_>
    ensures { option_map (option_map (λ n. n.now)) result ≡ spec.address_form (only_arg (arg_trees args.now)) }
{
    match args {
        [] => None,
        [arg] => arg_form(arg),
        [_, _, ..] => None,
    }
}

// `ReadDP(ADDRESS)`.
fn read_form(expr: &Expr) -> FirstName<'_>
    ensures { option_map (option_map (λ n. n.now)) result ≡ spec.read_form (tree expr.now) }
{
    match expr {
        Expr::Call(called, args) => {
            if called.name.text.as_str() == "ReadDP" {
                address_form(args.as_slice())
            } else {
                None
            }
        }
        _ => None,
    }
}

// `ReadDP(ADDRESS) & MASK`.
fn masked_form(expr: &Expr) -> FirstName<'_>
    ensures { option_map (option_map (λ n. n.now)) result ≡ spec.masked_form (tree expr.now) }
{
    match expr {
        Expr::Binary(BinaryOp::BitAnd, left, right) => both_forms(
            read_form(strip_groups(left)),
            word_form(strip_groups(right)),
        ),
        _ => None,
    }
}

// `(ReadDP(ADDRESS) & MASK) != VALUE`.
fn wait_form(expr: &Expr) -> FirstName<'_>
    ensures { option_map (option_map (λ n. n.now)) result ≡ spec.wait_form (tree expr.now) }
{
    match expr {
        Expr::Binary(BinaryOp::Ne, left, right) => both_forms(
            masked_form(strip_groups(left)),
            word_form(strip_groups(right)),
        ),
        _ => None,
    }
}

// The first name of a `while` with these steps, where the control would be a poll if each name in it were a number.
fn wait_name<'a>(expr: &'a Expr, steps: &[CheckedStep]) -> Option<&'a Name>
    ensures { option_map (λ n. n.now) result ≡ spec.wait_name (tree expr.now) (steps_tree steps.now) }
{
    match steps {
        [] => wait_form(strip_groups(expr)).unwrap_or(None),
        _ => None,
    }
}

/// Adds a `while` with these steps that waits by a name.
pub fn add_wait(
    alloc: Global,
    site: PartSite<'_>,
    repeat: &Option<Expr>,
    steps: &[CheckedStep],
    found: &mut ItemList<Warning>,
) -> Result<(), OutOfMemory>
    ensures { OnOk result (found.new ≡ found.old ++ spec.wait_warnings (part_at site.entry) (option_map tree repeat.now) (steps_tree steps.now)) }
{
    let Some(expr) = repeat else {
        return Ok(());
    };
    match wait_name(expr, steps) {
        Some(name) => {
            let kind = WarningKind::WaitByName;
            add_warning(alloc, kind, site, name.at, Some(name.text.as_str()), found)
        }
        None => Ok(()),
    }
}

fn is_long(repeat: &Option<Expr>, timeout: Option<u64>) -> bool
    ensures { result ≡ spec.is_long (option_map tree repeat.now) timeout }
{
    repeat.is_some() && turn_count(TURN_US, timeout) > MOST_UNITS
}

/// Adds a control itself whose `while` has more turns than a run may have units.
pub fn add_long(
    alloc: Global,
    site: PartSite<'_>,
    repeat: &Option<Expr>,
    timeout: Option<u64>,
    found: &mut ItemList<Warning>,
) -> Result<(), OutOfMemory>
    ensures { OnOk result (found.new ≡ found.old ++ spec.long_warnings (part_at site.entry) (option_map tree repeat.now) timeout) }
{
    if !is_long(repeat, timeout) {
        return Ok(());
    }
    let place = Place { line: 0, column: 0 };
    add_warning(alloc, WarningKind::LongWait, site, place, None, found)
}
