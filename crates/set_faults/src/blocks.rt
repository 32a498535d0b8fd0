//! All faults of statements.
ghost use Rattle.std.specs.Prelude.{◌≡◌, IfOk, OnOk};
ghost use Rattle.expr_grammar.specs.Tree.{stmt_tree, code_trees};
ghost use Rattle.code_check.specs.Order.{is_before};
ghost use Rattle.code_check.specs.BlockFaults.{names_after, names_after_all, StmtFault, BlockFault};
ghost use Rattle.code_check.specs.Views.{scope_view};
ghost use Rattle.set_faults.specs.Listed.{Adds, IsListOf};

use crate::code_faults::CodeFaults;
use crate::exprs::add_expr;
use code_check::{FaultKind, Names, Scope};
use dap_base::OutOfMemory;
use expr_grammar::Stmt;
use std::alloc::Global;

// Adds the faults of a statement.
fn add_statement(
    scope: Scope<'_>,
    statement: &Stmt,
    found: &mut CodeFaults,
) -> Result<(), OutOfMemory>
    ensures { OnOk result (Adds (StmtFault (scope_view scope.entry) (stmt_tree statement.now)) found.old found.new) }
{
    match statement {
        Stmt::Empty(at) => found.add_if(scope.in_debugvars, *at, FaultKind::BadDebugvars),
        Stmt::Declare(name, value) => {
            let is_visible = scope.visible.has(name.text.as_str());
            found.add_if(is_visible, name.at, FaultKind::Redeclared)?;
            add_expr(scope, value, found)
        }
        Stmt::Plain(at, value) => {
            found.add_if(scope.in_debugvars, *at, FaultKind::BadDebugvars)?;
            add_expr(scope, value, found)
        }
    }
}

// Makes the name visible that the statement declares.
fn declare(alloc: Global, names: &mut Names, statement: &Stmt) -> Result<(), OutOfMemory>
    ensures { OnOk result (names.new ≡ names_after names.old (stmt_tree statement.now)) }
{
    match statement {
        Stmt::Declare(name, _) => names.add(alloc, name.text.as_str()),
        _ => Ok(()),
    }
}

/// All faults of statements that see `names`, in order, each once. The names that they declare are added to
/// `names`. `OutOfMemory` where memory is refused; `names` then has those that some of the first statements
/// declare.
pub fn block_faults(
    alloc: Global,
    names: &mut Names,
    sequences: &Names,
    in_debugvars: bool,
    code: &[Stmt],
) -> Result<CodeFaults, OutOfMemory>
    ensures list { IfOk result (IsListOf is_before
        (BlockFault (record { visible = names.old; sequences = sequences.now; in_debugvars = in_debugvars }) (code_trees code.now))) }
    ensures names { OnOk result (names.new ≡ names_after_all names.old (code_trees code.now)) }
{
    let mut found = CodeFaults::new(alloc);
    for statement in code {
        let scope = Scope {
            visible: names,
            sequences,
            in_debugvars,
        };
        add_statement(scope, statement, &mut found)?;
        declare(alloc, names, statement)?;
    }
    Ok(found.in_order())
}
