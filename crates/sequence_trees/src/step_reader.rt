//! Steps, read in order up to their first faulty text.

ghost use Rattle.std.specs.Prelude.{◌≡◌, ◌⊎◌, option_map};
ghost use Rattle.device_tree.specs.StepsView.{steps_view};
ghost use Rattle.expr_grammar.specs.Tree.{tree};
ghost use Rattle.sequence_trees.specs.declared.spot.Part.TheVariants as kinds;
ghost use Rattle.sequence_trees.specs.Trees.{step_tree, steps_tree};
ghost use Rattle.sequence_trees.specs.Order.{text_if_some, block_texts, control_texts, under, steps_texts};
ghost use Rattle.sequence_trees.specs.Reading.{MayBeCondition, ReadsBlock, ReadsControl, ReadsSteps};
ghost use Rattle.sequence_trees.specs.Outcomes.{Outcome, ReadsStep, step_texts, at_part, IsUnder};

use crate::made;
use crate::spot::{OutwardPath, Part};
use crate::steps::{CheckedStep, CheckedSteps};
use crate::text::{TextFault, read_code, read_condition};
use dap_base::{ItemList, NameText, OutOfMemory, Place};
use device_tree::{Step, Steps};
use expr_grammar::Expr;
use std::alloc::Global;

/// The first faulty text of steps.
#[derive(Debug, Drop)]
pub struct FaultyText {
    /// The path to the step that has it.
    pub path: OutwardPath,
    pub part: Part,
    pub place: Place,
}

/// Why steps were not read.
#[derive(Debug, Drop)]
pub enum StepFault {
    Syntax(FaultyText),
    OutOfMemory,
}

impl From<OutOfMemory> for StepFault {
    ghost use Rattle.std.specs.Prelude.{◌≡◌};
    ghost use Rattle.sequence_trees.specs.declared.step_reader.StepFault.TheVariants as faults;

    ghost from_gives = { λ _ fault. fault ≡ faults.OutOfMemory };

    fn from(_refused: OutOfMemory) -> StepFault {
        StepFault::OutOfMemory
    }
}

// A fault in a text that a step has itself.
fn own_fault(alloc: Global, fault: TextFault, part: Part) -> StepFault
    ensures { result ≡ at_part part fault }
{
    match fault {
        TextFault::Syntax(place) => StepFault::Syntax(FaultyText {
            path: OutwardPath::new(alloc),
            part,
            place,
        }),
        TextFault::OutOfMemory => StepFault::OutOfMemory,
    }
}

// A fault in the step of this number, seen from the list in which the step is.
fn fault_under(fault: StepFault, number: u64) -> StepFault
    ensures { IsUnder number fault result }
{
    match fault {
        StepFault::Syntax(
            FaultyText {
                mut path,
                part,
                place,
            },
        ) => match path.push(number) {
            Ok(()) => StepFault::Syntax(FaultyText { path, part, place }),
            Err(_) => StepFault::OutOfMemory,
        },
        StepFault::OutOfMemory => StepFault::OutOfMemory,
    }
}

// A block.
fn block_of(alloc: Global, text: &NameText) -> Result<CheckedStep, StepFault>
    ensures { Outcome (λ step. ReadsBlock text.now (step_tree step)) (block_texts text.now) result }
{
    match read_code(alloc, text.as_str()) {
        Ok(code) => Ok(made::block(code)),
        Err(fault) => Err(own_fault(alloc, fault, Part::Block)),
    }
}

// A condition, where there is one.
fn condition_of(
    alloc: Global,
    text: &Option<NameText>,
    part: Part,
) -> Result<Option<Expr>, StepFault>
    requires { (part ≡ kinds.If) ⊎ (part ≡ kinds.While) }
    ensures { Outcome (λ condition. MayBeCondition text.now (option_map tree condition)) (text_if_some part text.now) result }
{
    match text {
        Some(text) => match read_condition(alloc, text.as_str()) {
            Ok(condition) => Ok(Some(condition)),
            Err(fault) => Err(own_fault(alloc, fault, part)),
        },
        None => Ok(None),
    }
}

// A control: its `if`, its `while`, and then the steps inside.
#[cycle(steps)]
fn control_of(
    alloc: Global,
    cond: &Option<NameText>,
    repeat: &Option<NameText>,
    timeout: Option<u64>,
    steps: &Steps,
) -> Result<CheckedStep, StepFault>
    ensures { Outcome (λ step. ReadsControl cond.now repeat.now timeout (λ inner. ReadsSteps steps.now inner) (step_tree step))
        (control_texts cond.now repeat.now (steps_texts 0 steps.now)) result }
{
    let cond = condition_of(alloc, cond, Part::If)?;
    let repeat = condition_of(alloc, repeat, Part::While)?;
    let inner = steps_of(alloc, steps)?;
    Ok(made::control(alloc, cond, repeat, timeout, inner)?)
}

#[cycle(steps)]
fn step_of(alloc: Global, step: &Step) -> Result<CheckedStep, StepFault>
    ensures { Outcome (λ checked. ReadsStep step.now (step_tree checked)) (step_texts step.now) result }
{
    match step {
        Step::Block { code, .. } => block_of(alloc, code),
        Step::Control {
            cond,
            repeat,
            timeout,
            steps,
        } => control_of(alloc, cond, repeat, *timeout, steps),
    }
}

// The step of a number.
#[cycle(steps)]
fn numbered_step_of(alloc: Global, step: &Step, number: u64) -> Result<CheckedStep, StepFault>
    ensures { Outcome (λ checked. ReadsStep step.now (step_tree checked)) (under number (step_texts step.now)) result }
{
    match step_of(alloc, step) {
        Ok(checked) => Ok(checked),
        Err(fault) => Err(fault_under(fault, number)),
    }
}

#[cycle(steps)]
fn items_of(alloc: Global, items: &[Step]) -> Result<CheckedSteps, StepFault>
    ensures { Outcome (λ checked. ReadsSteps (steps_view items.now) (steps_tree checked)) (steps_texts 0 (steps_view items.now)) result }
{
    let mut checked = ItemList::new(alloc);
    for (number, item) in items.iter().enumerate() {
        let step = numbered_step_of(alloc, item, number as u64)?;
        checked.push(step)?;
    }
    Ok(checked)
}

/// The steps of a sequence or of a control, or the first text among theirs that is faulty.
#[cycle(steps)]
pub fn steps_of(alloc: Global, steps: &Steps) -> Result<CheckedSteps, StepFault>
    ensures { Outcome (λ checked. ReadsSteps steps.now (steps_tree checked)) (steps_texts 0 steps.now) result }
{
    items_of(alloc, steps.as_slice())
}
