//! The debug variables that code assigns.
ghost use Rattle.std.specs.Prelude.{◌≡◌, ◌++◌, OnOk, option_map};
ghost use Rattle.expr_grammar.specs.Tree.{tree, arg_tree, arg_trees, stmt_tree, code_trees};
ghost use Rattle.set_warnings.specs.Sites.{part_at};
ghost use Rattle.set_warnings.specs.Assigned.{assignment_warnings, tree_warnings, arg_warnings, args_warnings, statement_warnings, block_warnings, condition_warnings};

use crate::site::{PartSite, add_warning};
use crate::warning::{Warning, WarningKind};
use code_check::Names;
use dap_base::{ItemList, OutOfMemory};
use expr_grammar::{Arg, Expr, Name, Stmt};
use std::alloc::Global;

// Adds the assignment to this name, where it is one of these variables.
fn add_assigned(
    alloc: Global,
    vars: &Names,
    site: PartSite<'_>,
    name: &Name,
    found: &mut ItemList<Warning>,
) -> Result<(), OutOfMemory>
    ensures { OnOk result (found.new ≡ found.old ++ assignment_warnings vars.now (part_at site.entry) name.now) }
{
    if !vars.has(name.text.as_str()) {
        return Ok(());
    }
    let kind = WarningKind::AssignedDebugVariable;
    add_warning(alloc, kind, site, name.at, Some(name.text.as_str()), found)
}

// Adds the assignments in an expression, in the order of the text.
#[cycle(assignments)]
fn add_expr(
    alloc: Global,
    vars: &Names,
    site: PartSite<'_>,
    expr: &Expr,
    found: &mut ItemList<Warning>,
) -> Result<(), OutOfMemory>
    ensures { OnOk result (found.new ≡ found.old ++ tree_warnings vars.now (part_at site.entry) (tree expr.now)) }
{
    match expr {
        Expr::Number(_) | Expr::Name(_) => Ok(()),
        Expr::Group(inner) => add_expr(alloc, vars, site, inner, found),
        Expr::Unary(_, operand) => add_expr(alloc, vars, site, operand, found),
        Expr::Binary(_, left, right) => {
            add_expr(alloc, vars, site, left, found)?;
            add_expr(alloc, vars, site, right, found)
        }
        Expr::Cond(test, first, second) => {
            add_expr(alloc, vars, site, test, found)?;
            add_expr(alloc, vars, site, first, found)?;
            add_expr(alloc, vars, site, second, found)
        }
        Expr::Assign(name, value) => {
            add_assigned(alloc, vars, site, name, found)?;
            add_expr(alloc, vars, site, value, found)
        }
        Expr::Call(_, args) => add_args(alloc, vars, site, args.as_slice(), found),
    }
}

#[cycle(assignments)]
fn add_arg(
    alloc: Global,
    vars: &Names,
    site: PartSite<'_>,
    arg: &Arg,
    found: &mut ItemList<Warning>,
) -> Result<(), OutOfMemory>
    ensures { OnOk result (found.new ≡ found.old ++ arg_warnings vars.now (part_at site.entry) (arg_tree arg.now)) }
{
    match arg {
        Arg::Number(_, value) => add_expr(alloc, vars, site, value, found),
        Arg::Text(_) => Ok(()),
    }
}

#[cycle(assignments)]
fn add_args(
    alloc: Global,
    vars: &Names,
    site: PartSite<'_>,
    args: &[Arg],
    found: &mut ItemList<Warning>,
) -> Result<(), OutOfMemory>
    ensures { OnOk result (found.new ≡ found.old ++ args_warnings vars.now (part_at site.entry) (arg_trees args.now)) }
{
    for arg in args {
        add_arg(alloc, vars, site, arg, found)?;
    }
    Ok(())
}

fn add_statement(
    alloc: Global,
    vars: &Names,
    site: PartSite<'_>,
    statement: &Stmt,
    found: &mut ItemList<Warning>,
) -> Result<(), OutOfMemory>
    ensures { OnOk result (found.new ≡ found.old ++ statement_warnings vars.now (part_at site.entry) (stmt_tree statement.now)) }
{
    match statement {
        Stmt::Empty(_) => Ok(()),
        Stmt::Declare(_, value) => add_expr(alloc, vars, site, value, found),
        Stmt::Plain(_, value) => add_expr(alloc, vars, site, value, found),
    }
}

/// Adds the assignments in statements to one of these variables, in the order of the text.
pub fn add_block(
    alloc: Global,
    vars: &Names,
    site: PartSite<'_>,
    code: &[Stmt],
    found: &mut ItemList<Warning>,
) -> Result<(), OutOfMemory>
    ensures { OnOk result (found.new ≡ found.old ++ block_warnings vars.now (part_at site.entry) (code_trees code.now)) }
{
    for statement in code {
        add_statement(alloc, vars, site, statement, found)?;
    }
    Ok(())
}

/// The same of a condition.
pub fn add_condition(
    alloc: Global,
    vars: &Names,
    site: PartSite<'_>,
    condition: &Option<Expr>,
    found: &mut ItemList<Warning>,
) -> Result<(), OutOfMemory>
    ensures { OnOk result (found.new ≡ found.old ++ condition_warnings vars.now (part_at site.entry) (option_map tree condition.now)) }
{
    match condition {
        Some(condition) => add_expr(alloc, vars, site, condition, found),
        None => Ok(()),
    }
}
