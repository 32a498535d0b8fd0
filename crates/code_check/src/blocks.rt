//! The first fault of statements.
ghost use Rattle.std.specs.Prelude.{◌≡◌, ℕ, map, take, IfOk, OnErr, OnOk, true};
ghost use Rattle.expr_grammar.specs.Tree.{stmt_tree, code_trees};
ghost use Rattle.code_check.specs.Order.{is_before};
ghost use Rattle.code_check.specs.First.{IsFirst, FaultWhere};
ghost use Rattle.code_check.specs.Notes.{Notes};
ghost use Rattle.expr_grammar.specs.Names.{has_name};
ghost use Rattle.code_check.specs.BlockFaults.{names_after, names_after_all, StmtFault, BlockFault};
ghost use Rattle.code_check.specs.Views.{scope_view};

use crate::calls::note_at;
use crate::exprs::note_expr;
use crate::fault::{CodeFault, FaultKind};
use crate::names::Names;
use crate::scope::Scope;
use dap_base::{OutOfMemory, Place};
use expr_grammar::{Name, Stmt};
use std::alloc::Global;

// Notes a statement that the debug variables must not have.
fn note_in_debugvars(scope: Scope<'_>, at: Place, found: &mut Option<CodeFault>)
    ensures { Notes (FaultWhere (scope.entry.in_debugvars ≡ true) at FaultKind.BadDebugvars) found.old found.new }
{
    if scope.in_debugvars {
        note_at(at, FaultKind::BadDebugvars, found);
    }
}

// Notes the declaration of a name that is visible already.
fn note_redeclared(scope: Scope<'_>, name: &Name, found: &mut Option<CodeFault>)
    ensures { Notes (FaultWhere (has_name (scope_view scope.entry).visible name.now.text ≡ true) name.now.at FaultKind.Redeclared) found.old found.new }
{
    if scope.visible.has(name.text.as_str()) {
        note_at(name.at, FaultKind::Redeclared, found);
    }
}

// Notes the first fault of a statement.
fn note_statement(scope: Scope<'_>, statement: &Stmt, found: &mut Option<CodeFault>)
    ensures { Notes (StmtFault (scope_view scope.entry) (stmt_tree statement.now)) found.old found.new }
{
    match statement {
        Stmt::Empty(at) => note_in_debugvars(scope, *at, found),
        Stmt::Declare(name, value) => {
            note_redeclared(scope, name, found);
            note_expr(scope, value, found);
        }
        Stmt::Plain(at, value) => {
            note_in_debugvars(scope, *at, found);
            note_expr(scope, value, found);
        }
    }
}

// Makes the name visible that the statement declares.
fn declare(alloc: Global, names: &mut Names, statement: &Stmt) -> Result<(), OutOfMemory>
    ensures ok { OnOk result (names.new ≡ names_after names.old (stmt_tree statement.now)) }
    ensures err { OnErr result (names.new ≡ names.old) }
{
    match statement {
        Stmt::Declare(name, _) => names.add(alloc, name.text.as_str()),
        _ => Ok(()),
    }
}

/// The first fault of statements that see `names`, to which the names are added that they declare. `None`
/// exactly where they have no fault. `OutOfMemory` where memory is refused; `names` then has the names that
/// some of the first statements declare, after those from before.
pub fn block_fault(
    alloc: Global,
    names: &mut Names,
    sequences: &Names,
    in_debugvars: bool,
    code: &[Stmt],
) -> Result<Option<CodeFault>, OutOfMemory>
    ensures first { IfOk result (IsFirst is_before
        (BlockFault (record { visible = names.old; sequences = sequences.now; in_debugvars = in_debugvars }) (code_trees code.now))) }
    ensures names { OnOk result (names.new ≡ names_after_all names.old (code_trees code.now)) }
    ensures refused { OnErr result ((count : ℕ) × (names.new ≡ names_after_all names.old (code_trees (take count code.now)))) }
{
    let mut found = None;
    for statement in code {
        let scope = Scope {
            visible: names,
            sequences,
            in_debugvars,
        };
        note_statement(scope, statement, &mut found);
        declare(alloc, names, statement)?;
    }
    Ok(found)
}
