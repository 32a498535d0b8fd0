//! The warnings of the sequences of a set that was read.
ghost use Rattle.std.specs.Prelude.{◌≡◌, ◌++◌, ◌<◌, Some, [], IfOk, OnOk};
ghost use Rattle.std.specs.List.{IsDistinct};
ghost use Rattle.std.specs.Str.{bytes_eq};
ghost use Rattle.expr_grammar.specs.Tree.{stmt_tree, code_trees};
ghost use Rattle.sequence_trees.specs.SetView.{set_trees};
ghost use Rattle.code_check.specs.BlockFaults.{names_after, names_after_all};
ghost use Rattle.seq_check.specs.SetFaults.{names_of};
ghost use Rattle.seq_check.specs.Calls.{set_calls};
ghost use Rattle.set_warnings.specs.Steps.{steps_warnings};
ghost use Rattle.set_warnings.specs.Sequences.{uncalled_warnings, debug_variables, entry_warnings, entries_warnings, AreCalledFlags};
ghost use Rattle.sequence_trees.specs.Trees.{steps_in};

use crate::called::{called_flags, is_predefined};
use crate::site::{PartSite, add_warning};
use crate::steps::add_steps;
use crate::warning::{Warning, WarningKind};
use code_check::Names;
use dap_base::{ItemList, OutOfMemory, Place};
use expr_grammar::Stmt;
use seq_check::sequences::sequence_names;
use seq_check::set_calls::set_calls;
use sequence_resolve::SeqEntry;
use sequence_trees::{Part, ReadSet};
use std::alloc::Global;

// For each of the first so many sequences whether a sequence of the set calls it.
fn called_in(alloc: Global, set: &ReadSet, count: usize) -> Result<Vec<bool>, OutOfMemory>
    requires { IsDistinct bytes_eq (names_of (set_trees set.now)) }
    ensures { IfOk result (λ flags. AreCalledFlags (set_calls (set_trees set.now)) count flags.items) }
{
    let sequences = sequence_names(alloc, set)?;
    let calls = set_calls(alloc, set, &sequences)?;
    called_flags(alloc, calls.as_slice(), count)
}

// Adds the name that the statement declares.
fn add_declared(alloc: Global, names: &mut Names, statement: &Stmt) -> Result<(), OutOfMemory>
    ensures { OnOk result (names.new ≡ names_after names.old (stmt_tree statement.now)) }
{
    match statement {
        Stmt::Declare(name, _) => names.add(alloc, name.text.as_str()),
        Stmt::Empty(_) | Stmt::Plain(_, _) => Ok(()),
    }
}

// The names of the debug variables.
fn debug_variables(alloc: Global, code: &[Stmt]) -> Result<Names, OutOfMemory>
    ensures { IfOk result (λ names. names ≡ names_after_all [] (code_trees code.now)) }
{
    let mut names = Names::new(alloc);
    for statement in code {
        add_declared(alloc, &mut names, statement)?;
    }
    Ok(names)
}

// Adds the sequence itself, where nothing calls it and no debugger starts it.
fn add_uncalled(
    alloc: Global,
    is_called: bool,
    name: &str,
    found: &mut ItemList<Warning>,
) -> Result<(), OutOfMemory>
    ensures { OnOk result (found.new ≡ found.old ++ uncalled_warnings is_called name.now) }
{
    if is_predefined(name) || is_called {
        return Ok(());
    }
    let site = PartSite {
        sequence: name,
        path: &[],
        part: Part::Control,
    };
    let place = Place { line: 0, column: 0 };
    add_warning(
        alloc,
        WarningKind::UncalledSequence,
        site,
        place,
        None,
        found,
    )
}

// Adds the warnings of the steps of a sequence.
fn add_inner(
    alloc: Global,
    set: &ReadSet,
    vars: &Names,
    name: &str,
    found: &mut ItemList<Warning>,
) -> Result<(), OutOfMemory>
    ensures { OnOk result (found.new ≡ found.old ++ steps_warnings vars.now name.now [] 0 (steps_in (set_trees set.now) name.now)) }
{
    match set.steps(name) {
        Some(steps) => add_steps(alloc, vars, name, &[], steps.as_slice(), found),
        None => Ok(()),
    }
}

// Adds the warnings of a sequence, of which is known whether it is called.
fn add_entry(
    alloc: Global,
    set: &ReadSet,
    vars: &Names,
    is_called: bool,
    entry: &SeqEntry,
    found: &mut ItemList<Warning>,
) -> Result<(), OutOfMemory>
    requires { vars.now ≡ debug_variables (set_trees set.now) }
    ensures { OnOk result (found.new ≡ found.old ++ entry_warnings (set_trees set.now) is_called entry.now) }
{
    if entry.disabled {
        return Ok(());
    }
    let name = entry.name.as_str();
    add_uncalled(alloc, is_called, name, found)?;
    add_inner(alloc, set, vars, name, found)
}

/// The warnings of the sequences of these entries, in order, where the set was read from them.
pub fn sequences_warnings(
    alloc: Global,
    entries: &[SeqEntry],
    set: &ReadSet,
) -> Result<ItemList<Warning>, OutOfMemory>
    requires { IsDistinct bytes_eq (names_of (set_trees set.now)) }
    ensures { IfOk result (λ found. found ≡ entries_warnings (set_trees set.now) 0 entries.now) }
{
    let called = called_in(alloc, set, entries.len())?;
    let vars = debug_variables(alloc, set.debugvars().as_slice())?;
    let mut found = ItemList::new(alloc);
    for (number, entry) in entries.iter().enumerate() {
        add_entry(alloc, set, &vars, called[number], entry, &mut found)?;
    }
    Ok(found)
}
