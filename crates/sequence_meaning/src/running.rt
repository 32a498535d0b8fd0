//! Whole runs: the debug variables, and then the sequence that a run starts with.
ghost use Rattle.expr_grammar.specs.Tree.{code_trees, stmt_tree, tree};
ghost use Rattle.seq_check.specs.Answers.{checked_trees};
ghost use Rattle.sequence_rules.specs.Direct.{direct};
ghost use Rattle.sequence_rules.specs.Steps as m;
ghost use Rattle.sequence_meaning.specs.Starting.{debugged_one, defined_variable};
ghost use Rattle.std.specs.Prelude.{false};
ghost use Rattle.sequence_meaning.specs.Frame.{RunsDirect};

use crate::end::{DirectEnd, Stopped};
use crate::held::DirectHeld;
use crate::runner::DirectRunner;
use dap_base::Sink;
use expr_grammar::{Expr, Name, Stmt};
use sequence_rules::MOST_CALLS_DEEP;
use target_machine::Target;

impl DirectRunner<'_> {
    // A debug variable gets its value.
    #[tactic(auto, using(crate::proofs::DebugLemmas::defines_on, crate::proofs::FrameLemmas::frames))]
    fn define<K: Sink>(
        &self,
        name: &Name,
        expr: &Expr,
        held: &mut DirectHeld,
        target: &mut Target,
        sink: &mut K,
    ) -> Result<(), Stopped>
        ensures { RunsDirect (defined_variable self.now.turn_us (checked_trees self.now.set.now) name.now (tree expr.now))
            K.written K.faults held.old target.old sink.old held.new target.new sink.new result }
    {
        let number = self.evaluate(expr, 0, held, target, sink)?;
        held.store(name.text.as_str(), number);
        Ok(())
    }

    // A statement of the debug variables.
    fn define_one<K: Sink>(
        &self,
        one: &Stmt,
        held: &mut DirectHeld,
        target: &mut Target,
        sink: &mut K,
    ) -> Result<(), Stopped>
        ensures { RunsDirect (debugged_one self.now.turn_us (checked_trees self.now.set.now) (stmt_tree one.now))
            K.written K.faults held.old target.old sink.old held.new target.new sink.new result }
    {
        match one {
            Stmt::Declare(name, expr) => self.define(name, expr, held, target, sink),
            Stmt::Empty(_) | Stmt::Plain(_, _) => Ok(()),
        }
    }

    // The debug variables get their values, in order.
    #[tactic(auto, using(crate::proofs::DebugLemmas::debugging, crate::proofs::FrameLemmas::frames))]
    fn define_all<K: Sink>(
        &self,
        code: &[Stmt],
        held: &mut DirectHeld,
        target: &mut Target,
        sink: &mut K,
    ) -> Result<(), Stopped>
        ensures { RunsDirect (m.debug_result (direct false) self.now.turn_us (checked_trees self.now.set.now) (code_trees code.now))
            K.written K.faults held.old target.old sink.old held.new target.new sink.new result }
    {
        for one in code {
            self.define_one(one, held, target, sink)?;
        }
        Ok(())
    }

    // A run: the debug variables, and then the sequence of the name, in a chain of at most 32 sequences.
    pub(crate) fn run_all<K: Sink>(
        &self,
        start: &str,
        held: &mut DirectHeld,
        target: &mut Target,
        sink: &mut K,
    ) -> Result<(), Stopped>
        ensures { RunsDirect (m.run_of (direct false) self.now.turn_us (checked_trees self.now.set.now) start.now)
            K.written K.faults held.old target.old sink.old held.new target.new sink.new result }
    {
        self.define_all(self.set.debugvars().as_slice(), held, target, sink)?;
        self.run_steps(self.steps_of(start), MOST_CALLS_DEEP, held, target, sink)
    }
}
