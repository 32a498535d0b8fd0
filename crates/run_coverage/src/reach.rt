//! The sequences that a sequence can reach by calls.
ghost use Rattle.std.specs.Prelude.{◌≡◌, ◌++◌, IfOk, OnOk, map, string_bytes};
ghost use Rattle.std.specs.List.{flat_map};
ghost use Rattle.seq_check.specs.Answers.{checked_trees};
ghost use Rattle.run_coverage.specs.Reach.{one_deeper, reached_names, sequence_names};
ghost use Rattle.expr_grammar.specs.Names.{with_names};

use crate::calls::push_names;
use code_check::Names;
use dap_base::{ItemList, NameText, OutOfMemory, Words};
use seq_check::Checked;
use sequence_rules::MOST_CALLS_DEEP;
use std::alloc::Global;

// Appends the sequences that the sequence of the name calls.
fn push_called(
    alloc: Global,
    checked: &Checked,
    name: &str,
    called: &mut Words,
) -> Result<(), OutOfMemory>
    ensures { OnOk result (called.new ≡ called.old ++ sequence_names (checked_trees checked.now) name.now) }
{
    match checked.steps(name) {
        Some(steps) => push_names(alloc, steps.as_slice(), called),
        None => Ok(()),
    }
}

// The sequences that these call.
fn called_by(alloc: Global, checked: &Checked, names: &[String]) -> Result<Words, OutOfMemory>
    ensures { IfOk result (λ called. called ≡ flat_map (sequence_names (checked_trees checked.now)) (map string_bytes names.now)) }
{
    let mut called = ItemList::new(alloc);
    for name in names {
        push_called(alloc, checked, name.as_str(), &mut called)?;
    }
    Ok(called)
}

// Adds names, one after the other.
fn add_names(alloc: Global, names: &mut Names, more: &[NameText]) -> Result<(), OutOfMemory>
    ensures { OnOk result (names.new ≡ with_names names.old more.now) }
{
    for name in more {
        names.add(alloc, name.as_str())?;
    }
    Ok(())
}

// Adds the sequences that these call.
fn go_deeper(alloc: Global, checked: &Checked, names: &mut Names) -> Result<(), OutOfMemory>
    ensures { OnOk result (names.new ≡ one_deeper (checked_trees checked.now) names.old) }
{
    let called = called_by(alloc, checked, names.as_slice())?;
    add_names(alloc, names, called.as_slice())
}

/// The sequences that the run of a sequence can reach, itself first.
pub fn reached_names(alloc: Global, checked: &Checked, start: &str) -> Result<Names, OutOfMemory>
    ensures { IfOk result (λ names. names ≡ reached_names (checked_trees checked.now) start.now) }
{
    let mut names = Names::new(alloc);
    names.add(alloc, start)?;
    for _ in 0..MOST_CALLS_DEEP {
        go_deeper(alloc, checked, &mut names)?;
    }
    Ok(names)
}
