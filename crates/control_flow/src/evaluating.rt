//! Whole runs of the evaluator: the debug variables, and then the sequence that a run starts with.
ghost use Rattle.expr_grammar.specs.Tree.{code_trees, stmt_tree, tree};
ghost use Rattle.function_calls.specs.Frame.{IsReadyToCall, RunsWriting};
ghost use Rattle.control_flow.specs.Parts.{late_debug_of, late_debugs_of, late_definition_of, late_run_of};

use crate::runner::Runner;
use access_calls::Access;
use dap_base::Sink;
use expr_grammar::{Expr, Name, Stmt};
use function_calls::{End, Held};
use sequence_rules::MOST_CALLS_DEEP;

impl Runner<'_> {
    // A debug variable gets its value, which is not used.
    #[tactic(auto, using(crate::proofs::Exits::goes_on))]
    fn define<A: Access, K: Sink>(
        &self,
        name: &Name,
        expr: &Expr,
        held: &mut Held,
        access: &mut A,
        sink: &mut K,
    ) -> Result<(), End>
        requires ready { IsReadyToCall held.old.units (A.reported access.old) }
        ensures { RunsWriting (late_definition_of self.now name.now (tree expr.now))
            A.cost A.begun A.reported A.identity K.written K.faults held.old access.old sink.old held.new access.new sink.new result }
    {
        let value = self.evaluate(expr, 0, held, access, sink)?;
        held.store(name.text.as_str(), value);
        Ok(())
    }

    // A statement of the debug variables.
    #[tactic(auto, using(crate::proofs::Exits::goes_on))]
    fn define_one<A: Access, K: Sink>(
        &self,
        one: &Stmt,
        held: &mut Held,
        access: &mut A,
        sink: &mut K,
    ) -> Result<(), End>
        requires ready { IsReadyToCall held.old.units (A.reported access.old) }
        ensures { RunsWriting (late_debug_of self.now (stmt_tree one.now))
            A.cost A.begun A.reported A.identity K.written K.faults held.old access.old sink.old held.new access.new sink.new result }
    {
        match one {
            Stmt::Declare(name, expr) => self.define(name, expr, held, access, sink),
            Stmt::Empty(_) | Stmt::Plain(_, _) => Ok(()),
        }
    }

    // The debug variables get their values, in order.
    #[tactic(auto, using(crate::proofs::Exits::goes_on))]
    fn define_all<A: Access, K: Sink>(
        &self,
        code: &[Stmt],
        held: &mut Held,
        access: &mut A,
        sink: &mut K,
    ) -> Result<(), End>
        requires ready { IsReadyToCall held.old.units (A.reported access.old) }
        ensures { RunsWriting (late_debugs_of self.now (code_trees code.now))
            A.cost A.begun A.reported A.identity K.written K.faults held.old access.old sink.old held.new access.new sink.new result }
    {
        for one in code {
            self.define_one(one, held, access, sink)?;
        }
        Ok(())
    }

    // A run: the debug variables, and then the sequence of the name, in a chain of at most 32 sequences.
    #[tactic(auto, unfolding(sequence_rules::specs::Steps::run_of), using(crate::proofs::Exits::goes_on))]
    pub(crate) fn run_all<A: Access, K: Sink>(
        &self,
        start: &str,
        held: &mut Held,
        access: &mut A,
        sink: &mut K,
    ) -> Result<(), End>
        requires ready { IsReadyToCall held.old.units (A.reported access.old) }
        ensures { RunsWriting (late_run_of self.now start.now)
            A.cost A.begun A.reported A.identity K.written K.faults held.old access.old sink.old held.new access.new sink.new result }
    {
        self.define_all(self.set.debugvars().as_slice(), held, access, sink)?;
        self.run_steps(self.steps_of(start), MOST_CALLS_DEEP, held, access, sink)
    }
}
