//! Steps and statements.
ghost use Rattle.sequence_trees.specs.Trees.{step_tree, steps_tree};
ghost use Rattle.target_machine.specs.State.{TargetState};
ghost use Rattle.sequence_rules.specs.Direct.{direct};
ghost use Rattle.sequence_rules.specs.Steps as m;
ghost use Rattle.std.specs.Prelude.{false};
ghost use Rattle.sequence_meaning.specs.Frame.{RunsDirect, RunsWithoutSink};
ghost use Rattle.sequence_meaning.specs.Parts.{block_meaning, declaration_meaning, plain_meaning, statement_meaning, step_meaning, steps_meaning};
ghost use Rattle.expr_grammar.specs.Tree.{code_trees, stmt_tree, tree};

use crate::end::{DirectEnd, Stopped};
use crate::held::DirectHeld;
use crate::runner::DirectRunner;
use dap_base::Sink;
use expr_grammar::{Expr, Name, Stmt};
use sequence_rules::MOST_STEPS;
use sequence_trees::CheckedStep;
use target_machine::{HaltCause, Target};

impl DirectRunner<'_> {
    // Steps, in order.
    #[cycle(eval)]
    #[tactic(auto, unfolding(sequence_rules::specs::Steps::steps_result), using(crate::proofs::Loops::loops))]
    pub(crate) fn run_steps<K: Sink>(
        &self,
        steps: &[CheckedStep],
        depth: u32,
        held: &mut DirectHeld,
        target: &mut Target,
        sink: &mut K,
    ) -> Result<(), Stopped>
        ensures { RunsDirect (steps_meaning self.now depth (steps_tree steps.now))
            K.written K.faults held.old target.old sink.old held.new target.new sink.new result }
    {
        for one in steps {
            self.run_step(one, depth, held, target, sink)?;
        }
        Ok(())
    }

    // A step.
    #[cycle(eval)]
    #[tactic(auto, unfolding(sequence_rules::specs::Steps::step))]
    fn run_step<K: Sink>(
        &self,
        one: &CheckedStep,
        depth: u32,
        held: &mut DirectHeld,
        target: &mut Target,
        sink: &mut K,
    ) -> Result<(), Stopped>
        ensures { RunsDirect (step_meaning self.now depth (step_tree one.now))
            K.written K.faults held.old target.old sink.old held.new target.new sink.new result }
    {
        match one {
            CheckedStep::Block(code) => self.run_block(code.as_slice(), depth, held, target, sink),
            CheckedStep::Control {
                cond,
                repeat,
                timeout,
                steps,
            } => self.run_control(
                cond,
                repeat,
                *timeout,
                steps.as_slice(),
                depth,
                held,
                target,
                sink,
            ),
        }
    }

    // The statements of a block, in order.
    #[cycle(eval)]
    #[tactic(auto, unfolding(sequence_rules::specs::Steps::block), using(crate::proofs::Loops::loops))]
    fn run_block<K: Sink>(
        &self,
        code: &[Stmt],
        depth: u32,
        held: &mut DirectHeld,
        target: &mut Target,
        sink: &mut K,
    ) -> Result<(), Stopped>
        ensures { RunsDirect (block_meaning self.now depth (code_trees code.now))
            K.written K.faults held.old target.old sink.old held.new target.new sink.new result }
    {
        for one in code {
            self.run_statement(one, depth, held, target, sink)?;
        }
        Ok(())
    }

    // A statement.
    #[cycle(eval)]
    #[tactic(auto, unfolding(sequence_rules::specs::Steps::statement))]
    fn run_statement<K: Sink>(
        &self,
        one: &Stmt,
        depth: u32,
        held: &mut DirectHeld,
        target: &mut Target,
        sink: &mut K,
    ) -> Result<(), Stopped>
        ensures { RunsDirect (statement_meaning self.now depth (stmt_tree one.now))
            K.written K.faults held.old target.old sink.old held.new target.new sink.new result }
    {
        match one {
            Stmt::Empty(_) => count_step(held),
            Stmt::Declare(name, expr) => self.declare(name, expr, depth, held, target, sink),
            Stmt::Plain(_, expr) => self.run_expression(expr, depth, held, target, sink),
        }
    }

    // A declaration.
    #[cycle(eval)]
    fn declare<K: Sink>(
        &self,
        name: &Name,
        expr: &Expr,
        depth: u32,
        held: &mut DirectHeld,
        target: &mut Target,
        sink: &mut K,
    ) -> Result<(), Stopped>
        ensures { RunsDirect (declaration_meaning self.now depth name.now (tree expr.now))
            K.written K.faults held.old target.old sink.old held.new target.new sink.new result }
    {
        count_step(held)?;
        let number = self.evaluate(expr, depth, held, target, sink)?;
        match held.declare(self.alloc, &name.text, number) {
            Ok(()) => Ok(()),
            Err(_) => {
                held.end = DirectEnd::OutOfMemory;
                Err(Stopped)
            }
        }
    }

    // An expression whose value is dropped.
    #[cycle(eval)]
    fn run_expression<K: Sink>(
        &self,
        expr: &Expr,
        depth: u32,
        held: &mut DirectHeld,
        target: &mut Target,
        sink: &mut K,
    ) -> Result<(), Stopped>
        ensures { RunsDirect (plain_meaning self.now depth (tree expr.now))
            K.written K.faults held.old target.old sink.old held.new target.new sink.new result }
    {
        count_step(held)?;
        self.evaluate(expr, depth, held, target, sink)?;
        Ok(())
    }
}

// Counts a step.
#[tactic(auto, unfolding(sequence_rules::specs::Steps::counted_step))]
pub(crate) fn count_step(held: &mut DirectHeld) -> Result<(), Stopped>
    ensures { (target : TargetState) → RunsWithoutSink (m.counted_step (direct false)) held.old target held.new target result }
{
    if held.steps >= MOST_STEPS {
        held.end = DirectEnd::Halted(HaltCause::StepLimit);
        return Err(Stopped);
    }
    held.steps += 1;
    Ok(())
}
