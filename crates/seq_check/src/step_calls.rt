//! The calls of sequences in steps.
ghost use Rattle.std.specs.Prelude.{◌≡◌, ◌++◌, ◌∷◌, [], OnOk, option_map};
ghost use Rattle.expr_grammar.specs.Tree.{tree, code_trees};
ghost use Rattle.sequence_trees.specs.declared.spot.Part.TheVariants as parts;
ghost use Rattle.sequence_trees.specs.Trees.{step_tree, steps_tree};
ghost use Rattle.seq_check.specs.Calls.{block_calls, condition_calls, calls_at, step_calls, steps_calls};

use crate::calls::{TextCall, push_block, push_condition};
use code_check::Names;
use dap_base::{ItemList, OutOfMemory, Place};
use expr_grammar::{Expr, Stmt};
use sequence_trees::{CheckedStep, Part, StepPath, inner_path};
use std::alloc::Global;

/// A call of a sequence, and where it stands in the sequence that calls.
#[derive(Debug, Drop)]
pub struct StepCall {
    /// The numbers of the steps that lead to its step, the outermost first.
    pub path: StepPath,
    /// The part of that step.
    pub part: Part,
    /// The place of the called name.
    pub place: Place,
    /// The number of the sequence that is called, counted from 0.
    pub callee: usize,
}

// Appends the calls of a text as those of a part of the step of this number inside the one at the path. A path is made for each
// call, and none where there is no call.
fn push_calls(
    alloc: Global,
    path: &[u64],
    number: u64,
    part: Part,
    texts: &[TextCall],
    calls: &mut ItemList<StepCall>,
) -> Result<(), OutOfMemory>
    ensures { OnOk result (calls.new ≡ calls.old ++ calls_at (path.now ++ number ∷ []) part texts.now) }
{
    for text in texts {
        let path = inner_path(alloc, path, number)?;
        calls.push(StepCall {
            path,
            part,
            place: text.place,
            callee: text.callee,
        })?;
    }
    Ok(())
}

fn push_block_step(
    alloc: Global,
    names: &Names,
    path: &[u64],
    number: u64,
    code: &[Stmt],
    calls: &mut ItemList<StepCall>,
) -> Result<(), OutOfMemory>
    ensures { OnOk result (calls.new ≡ calls.old ++ calls_at (path.now ++ number ∷ []) parts.Block (block_calls names.now (code_trees code.now))) }
{
    let mut texts = ItemList::new(alloc);
    push_block(names, code, &mut texts)?;
    push_calls(alloc, path, number, Part::Block, texts.as_slice(), calls)
}

fn push_part(
    alloc: Global,
    names: &Names,
    path: &[u64],
    number: u64,
    part: Part,
    condition: &Option<Expr>,
    calls: &mut ItemList<StepCall>,
) -> Result<(), OutOfMemory>
    ensures { OnOk result (calls.new ≡ calls.old ++ calls_at (path.now ++ number ∷ []) part (condition_calls names.now (option_map tree condition.now))) }
{
    let mut texts = ItemList::new(alloc);
    push_condition(names, condition, &mut texts)?;
    push_calls(alloc, path, number, part, texts.as_slice(), calls)
}

// Appends the calls of the step of this number inside the one at the path.
#[cycle(step_calls)]
fn push_step(
    alloc: Global,
    names: &Names,
    path: &[u64],
    number: u64,
    step: &CheckedStep,
    calls: &mut ItemList<StepCall>,
) -> Result<(), OutOfMemory>
    ensures { OnOk result (calls.new ≡ calls.old ++ step_calls names.now (path.now ++ number ∷ []) (step_tree step.now)) }
{
    match step {
        CheckedStep::Block(code) => {
            push_block_step(alloc, names, path, number, code.as_slice(), calls)
        }
        CheckedStep::Control {
            cond,
            repeat,
            timeout: _,
            steps,
        } => {
            push_part(alloc, names, path, number, Part::If, cond, calls)?;
            push_part(alloc, names, path, number, Part::While, repeat, calls)?;
            let inner = inner_path(alloc, path, number)?;
            push_steps(alloc, names, inner.as_slice(), steps.as_slice(), calls)
        }
    }
}

/// Appends the calls of the steps inside the one at the path, in the order of the text.
#[cycle(step_calls)]
pub fn push_steps(
    alloc: Global,
    names: &Names,
    path: &[u64],
    steps: &[CheckedStep],
    calls: &mut ItemList<StepCall>,
) -> Result<(), OutOfMemory>
    ensures { OnOk result (calls.new ≡ calls.old ++ steps_calls names.now path.now 0 (steps_tree steps.now)) }
{
    for (number, step) in steps.iter().enumerate() {
        push_step(alloc, names, path, number as u64, step, calls)?;
    }
    Ok(())
}
