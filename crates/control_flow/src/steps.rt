//! Steps and statements.
ghost use Rattle.expr_grammar.specs.Tree.{code_trees, stmt_tree, tree};
ghost use Rattle.sequence_trees.specs.Trees.{step_tree, steps_tree};
ghost use Rattle.function_calls.specs.Frame.{IsReadyToCall, RunsWriting};
ghost use Rattle.control_flow.specs.Parts.{late_block_of, late_declaration_of, late_plain_of, late_statement_of, late_step_of, late_steps_of};

use crate::runner::Runner;
use access_calls::Access;
use dap_base::Sink;
use expr_grammar::{Expr, Name, Stmt};
use function_calls::{End, Held};
use sequence_trees::CheckedStep;

impl Runner<'_> {
    // Steps, in order.
    #[cycle(eval)]
    #[tactic(auto, unfolding(sequence_rules::specs::Steps::steps_result), using(crate::proofs::Exits::goes_on))]
    pub(crate) fn run_steps<A: Access, K: Sink>(
        &self,
        steps: &[CheckedStep],
        depth: u32,
        held: &mut Held,
        access: &mut A,
        sink: &mut K,
    ) -> Result<(), End>
        requires ready { IsReadyToCall held.old.units (A.reported access.old) }
        ensures { RunsWriting (late_steps_of self.now depth (steps_tree steps.now))
            A.cost A.begun A.reported A.identity K.written K.faults held.old access.old sink.old held.new access.new sink.new result }
    {
        for one in steps {
            self.run_step(one, depth, held, access, sink)?;
        }
        Ok(())
    }

    // A step.
    #[cycle(eval)]
    #[tactic(auto, unfolding(sequence_rules::specs::Steps::step), using(crate::proofs::Exits::goes_on))]
    fn run_step<A: Access, K: Sink>(
        &self,
        one: &CheckedStep,
        depth: u32,
        held: &mut Held,
        access: &mut A,
        sink: &mut K,
    ) -> Result<(), End>
        requires ready { IsReadyToCall held.old.units (A.reported access.old) }
        ensures { RunsWriting (late_step_of self.now depth (step_tree one.now))
            A.cost A.begun A.reported A.identity K.written K.faults held.old access.old sink.old held.new access.new sink.new result }
    {
        match one {
            CheckedStep::Block(code) => self.run_block(code.as_slice(), depth, held, access, sink),
            CheckedStep::Control {
                cond,
                repeat,
                timeout,
                steps,
            } => self.run_control(
                cond,
                repeat,
                *timeout,
                steps.as_slice(),
                depth,
                held,
                access,
                sink,
            ),
        }
    }

    // The statements of a block, in order.
    #[cycle(eval)]
    #[tactic(auto, unfolding(sequence_rules::specs::Steps::block), using(crate::proofs::Exits::goes_on))]
    fn run_block<A: Access, K: Sink>(
        &self,
        code: &[Stmt],
        depth: u32,
        held: &mut Held,
        access: &mut A,
        sink: &mut K,
    ) -> Result<(), End>
        requires ready { IsReadyToCall held.old.units (A.reported access.old) }
        ensures { RunsWriting (late_block_of self.now depth (code_trees code.now))
            A.cost A.begun A.reported A.identity K.written K.faults held.old access.old sink.old held.new access.new sink.new result }
    {
        for one in code {
            self.run_statement(one, depth, held, access, sink)?;
        }
        Ok(())
    }

    // A statement.
    #[cycle(eval)]
    #[tactic(auto, unfolding(sequence_rules::specs::Steps::statement), using(crate::proofs::Exits::goes_on))]
    fn run_statement<A: Access, K: Sink>(
        &self,
        one: &Stmt,
        depth: u32,
        held: &mut Held,
        access: &mut A,
        sink: &mut K,
    ) -> Result<(), End>
        requires ready { IsReadyToCall held.old.units (A.reported access.old) }
        ensures { RunsWriting (late_statement_of self.now depth (stmt_tree one.now))
            A.cost A.begun A.reported A.identity K.written K.faults held.old access.old sink.old held.new access.new sink.new result }
    {
        match one {
            Stmt::Empty(_) => match held.count_step() {
                Ok(()) => Ok(()),
                Err(cause) => Err(End::Halted(cause)),
            },
            Stmt::Declare(name, expr) => self.declare(name, expr, depth, held, access, sink),
            Stmt::Plain(_, expr) => self.run_expression(expr, depth, held, access, sink),
        }
    }

    // A declaration. The value is not used.
    #[cycle(eval)]
    #[tactic(auto, unfolding(sequence_rules::specs::Steps::after_counted, sequence_rules::specs::Steps::declared_variable), using(crate::proofs::Exits::goes_on))]
    fn declare<A: Access, K: Sink>(
        &self,
        name: &Name,
        expr: &Expr,
        depth: u32,
        held: &mut Held,
        access: &mut A,
        sink: &mut K,
    ) -> Result<(), End>
        requires ready { IsReadyToCall held.old.units (A.reported access.old) }
        ensures { RunsWriting (late_declaration_of self.now depth name.now (tree expr.now))
            A.cost A.begun A.reported A.identity K.written K.faults held.old access.old sink.old held.new access.new sink.new result }
    {
        match held.count_step() {
            Ok(()) => {}
            Err(cause) => return Err(End::Halted(cause)),
        }
        let value = self.evaluate(expr, depth, held, access, sink)?;
        match held.declare(self.alloc, &name.text, value) {
            Ok(()) => Ok(()),
            Err(_) => Err(End::OutOfMemory),
        }
    }

    // An expression whose value is dropped, and not used.
    #[cycle(eval)]
    #[tactic(auto, unfolding(sequence_rules::specs::Steps::after_counted, sequence_rules::specs::Steps::dropped_value), using(crate::proofs::Exits::goes_on))]
    fn run_expression<A: Access, K: Sink>(
        &self,
        expr: &Expr,
        depth: u32,
        held: &mut Held,
        access: &mut A,
        sink: &mut K,
    ) -> Result<(), End>
        requires ready { IsReadyToCall held.old.units (A.reported access.old) }
        ensures { RunsWriting (late_plain_of self.now depth (tree expr.now))
            A.cost A.begun A.reported A.identity K.written K.faults held.old access.old sink.old held.new access.new sink.new result }
    {
        match held.count_step() {
            Ok(()) => {}
            Err(cause) => return Err(End::Halted(cause)),
        }
        self.evaluate(expr, depth, held, access, sink)?;
        Ok(())
    }
}
