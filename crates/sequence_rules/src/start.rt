//! The variables with which a run starts.
ghost use Rattle.std.specs.Prelude.{◌≡◌, [], ◌∷◌, IfOk, OnOk, map};
ghost use Rattle.expr_grammar.specs.Tree.{code_trees, stmt_tree};
ghost use Rattle.function_table.specs.Variables.{names_of_predefined};
ghost use Rattle.sequence_rules.specs.Runs.{variables_of};
ghost use Rattle.sequence_rules.specs.Shared.{bindings_of};
ghost use Rattle.sequence_rules.specs.Steps.{declared_names};
ghost use Rattle.sequence_rules.specs.Variables.{with_all_new};

use crate::globals::Globals;
use crate::shared::VariableValue;
use dap_base::OutOfMemory;
use expr_grammar::Stmt;
use std::alloc::Global;
use target_machine::Variable;

/// The predefined variables with their starting values, as numbers.
///
/// `OutOfMemory` where memory is refused.
pub fn predefined_globals(alloc: Global, start: &[Variable]) -> Result<Globals<u64>, OutOfMemory>
    requires { map (λ variable. variable.name) start.now ≡ names_of_predefined }
    ensures { IfOk result (λ globals. bindings_of globals ≡ variables_of start.now) }
{
    let mut globals = Globals::new(alloc);
    for variable in start {
        globals.add(alloc, variable.name.as_str(), variable.value)?;
    }
    Ok(globals)
}

// The variable that a statement declares, at 0.
fn add_one<V: VariableValue>(
    globals: &mut Globals<V>,
    alloc: Global,
    one: &Stmt,
) -> Result<(), OutOfMemory>
    ensures { OnOk result (bindings_of globals.new ≡ with_all_new (bindings_of globals.old) (declared_names (stmt_tree one.now ∷ [])) V.zero) }
{
    match one {
        Stmt::Declare(name, _) => globals.add(alloc, name.text.as_str(), V::zero()),
        Stmt::Empty(_) | Stmt::Plain(_, _) => Ok(()),
    }
}

/// Adds the variables that the statements of debug variables declare, at 0. One that is there stays as it is.
///
/// `OutOfMemory` where memory is refused; some of them may then have been added.
pub fn add_declared<V: VariableValue>(
    globals: &mut Globals<V>,
    alloc: Global,
    code: &[Stmt],
) -> Result<(), OutOfMemory>
    ensures { OnOk result (bindings_of globals.new ≡ with_all_new (bindings_of globals.old) (declared_names (code_trees code.now)) V.zero) }
{
    for one in code {
        add_one(globals, alloc, one)?;
    }
    Ok(())
}
