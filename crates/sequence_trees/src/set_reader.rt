//! The texts of a set, read in order up to the first that is faulty.

ghost use Rattle.std.specs.Prelude.{◌≡◌, IfOk, OnOk, None, map};
ghost use Rattle.std.specs.List.{IsDistinct};
ghost use Rattle.std.specs.Str.{bytes_eq};
ghost use Rattle.expr_grammar.specs.Tree.{code_trees};
ghost use Rattle.sequence_trees.specs.declared.spot.Spot.{Spot};
ghost use Rattle.sequence_trees.specs.Trees.{SetTrees, steps_tree, steps_named, with_sequence};
ghost use Rattle.sequence_trees.specs.Order.{IsFirstFault, enabled_steps, entry_texts, debugvars_texts};
ghost use Rattle.sequence_trees.specs.Texts.{IsCodeOf};
ghost use Rattle.sequence_trees.specs.Reading.{ReadsSet, ReadsSteps};
ghost use Rattle.sequence_trees.specs.SetView.{set_trees};
ghost use Rattle.sequence_trees.specs.Answers.{AnswersSet, GivesSet, ReportsSpot};
ghost use Rattle.sequence_trees.specs.Outcomes.{SetOutcome, spot_in};

use crate::set::ReadSet;
use crate::spot::{Part, Spot, StepPath};
use crate::step_reader::{FaultyText, StepFault, steps_of};
use crate::steps::CheckedSteps;
use crate::text::{TextFault, read_code};
use dap_base::{ItemList, NameText, OutOfMemory};
use expr_grammar::Code;
use sequence_resolve::{SeqEntry, SeqSet};
use std::alloc::Global;

/// Why a set was not read.
#[derive(Debug, Drop)]
pub enum SetFault {
    /// The first text of the set that is no code, or no expression, with the place of its first fault.
    Syntax(Spot),
    /// Memory was refused.
    OutOfMemory,
}

impl From<OutOfMemory> for SetFault {
    ghost use Rattle.std.specs.Prelude.{◌≡◌};
    ghost use Rattle.sequence_trees.specs.declared.set_reader.SetFault.TheVariants as faults;

    ghost from_gives = { λ _ fault. fault ≡ faults.OutOfMemory };

    fn from(_refused: OutOfMemory) -> SetFault {
        SetFault::OutOfMemory
    }
}

// The code of the debug variables.
fn debugvars_of(alloc: Global, text: &NameText) -> Result<Code, SetFault>
    ensures { SetOutcome (λ code. IsCodeOf text.now (code_trees code)) (debugvars_texts text.now) result }
{
    match read_code(alloc, text.as_str()) {
        Ok(code) => Ok(code),
        Err(TextFault::Syntax(place)) => Err(SetFault::Syntax(Spot {
            sequence: None,
            path: StepPath::new(alloc),
            part: Part::Debugvars,
            place,
        })),
        Err(TextFault::OutOfMemory) => Err(SetFault::OutOfMemory),
    }
}

fn spot_of(alloc: Global, name: &NameText, faulty: &FaultyText) -> Result<Spot, OutOfMemory>
    ensures { IfOk result (λ spot. spot ≡ spot_in name.now faulty.now) }
{
    Ok(Spot {
        sequence: Some(NameText::new(alloc, name.as_str())?),
        path: faulty.path.to_path(alloc)?,
        part: faulty.part,
        place: faulty.place,
    })
}

// The steps of a sequence, none where it is disabled.
fn entry_steps(alloc: Global, entry: &SeqEntry) -> Result<CheckedSteps, SetFault>
    ensures { SetOutcome (λ steps. ReadsSteps (enabled_steps entry.now) (steps_tree steps)) (entry_texts entry.now) result }
{
    if entry.disabled {
        return Ok(ItemList::new(alloc));
    }
    match steps_of(alloc, entry.steps.as_steps()) {
        Ok(steps) => Ok(steps),
        Err(StepFault::Syntax(faulty)) => {
            Err(SetFault::Syntax(spot_of(alloc, &entry.name, &faulty)?))
        }
        Err(StepFault::OutOfMemory) => Err(SetFault::OutOfMemory),
    }
}

fn add_sequence(
    alloc: Global,
    read: &mut ReadSet,
    name: &NameText,
    steps: CheckedSteps,
) -> Result<(), OutOfMemory>
    requires { steps_named name.now (set_trees read.old).sequences ≡ None }
    ensures { OnOk result (set_trees read.new ≡ with_sequence name.now (steps_tree steps) (set_trees read.old)) }
{
    let Ok(key) = String::from_str(alloc, name.as_str()) else {
        return Err(OutOfMemory);
    };
    read.add(key, steps)
}

fn set_of(alloc: Global, set: &SeqSet) -> Result<ReadSet, SetFault>
    requires { IsDistinct bytes_eq (map (λ e. e.name) set.now.entries) }
    ensures { AnswersSet set.now result }
{
    let debugvars = debugvars_of(alloc, &set.debugvars)?;
    let mut read = ReadSet::new(alloc, debugvars);
    for entry in set.entries.as_slice() {
        let steps = entry_steps(alloc, entry)?;
        add_sequence(alloc, &mut read, &entry.name, steps)?;
    }
    Ok(read)
}

/// The set with each of its texts read: the debug variables and blocks as code, the `if` and the
/// `while` of controls as conditions. A disabled sequence has no texts and no steps. The names of the
/// set must be distinct, as those that `effective` answers are.
///
/// `Syntax` exactly where some text of the set is no code (or no expression), with the first such text and the place of its first fault.
/// The debug variables come first, then the sequences in the set's order, the steps of each in order. A control's `if` comes before its
/// `while`, and both before the steps inside. `OutOfMemory` where memory is refused. Each text is gone through once.
pub fn read_set(alloc: Global, set: &SeqSet) -> Result<ReadSet, SetFault>
    requires { IsDistinct bytes_eq (map (λ e. e.name) set.now.entries) }
    ensures answer { AnswersSet set.now result }
    ensures only { (trees : SetTrees) → ReadsSet set.now trees → GivesSet trees result }
    ensures only_fault { (spot : Spot) → IsFirstFault set.now spot → ReportsSpot spot result }
{
    set_of(alloc, set)
}
