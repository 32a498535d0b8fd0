//! Steps made of their parts.

ghost use Rattle.std.specs.Prelude.{◌≡◌, IfOk, option_map};
ghost use Rattle.expr_grammar.specs.Tree.{tree, code_trees};
ghost use Rattle.sequence_trees.specs.Trees as trees;
ghost use Rattle.sequence_trees.specs.Trees.{step_tree, steps_tree};

use crate::steps::{CheckedStep, CheckedSteps};
use dap_base::OutOfMemory;
use expr_grammar::{Code, Expr};
use std::alloc::Global;

fn box_condition(alloc: Global, condition: Option<Expr>) -> Result<Box<Option<Expr>>, OutOfMemory>
    ensures { IfOk result (λ b. option_map tree b.value ≡ option_map tree condition) }
{
    Box::new(alloc, condition).map_err(|_| OutOfMemory)
}

pub fn block(code: Code) -> CheckedStep
    ensures { step_tree result ≡ trees.Block (code_trees code) }
{
    CheckedStep::Block(code)
}

pub fn control(
    alloc: Global,
    cond: Option<Expr>,
    repeat: Option<Expr>,
    timeout: Option<u64>,
    steps: CheckedSteps,
) -> Result<CheckedStep, OutOfMemory>
    ensures { IfOk result (λ step. step_tree step ≡ trees.Control (option_map tree cond) (option_map tree repeat) timeout (steps_tree steps)) }
{
    Ok(CheckedStep::Control {
        cond: box_condition(alloc, cond)?,
        repeat: box_condition(alloc, repeat)?,
        timeout,
        steps,
    })
}
