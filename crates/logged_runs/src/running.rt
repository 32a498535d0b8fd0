//! Whole runs: the debug variables, and then the sequence that a run starts with.
ghost use Rattle.std.specs.Prelude.{[]};
ghost use Rattle.expr_grammar.specs.Tree.{stmt_tree, tree};
ghost use Rattle.logged_runs.specs.OfSteps.{debug_variables_in_walk, debugged_seen, run_in_walk, run_seen};
ghost use Rattle.logged_runs.specs.Walk.{SeesWalk, WalksAs, debug_statement_in_walk, defined_events, definition_in_walk, one_events};

use crate::runner::LoggedRunner;
use crate::walked::Walked;
use expr_grammar::{Expr, Name, Stmt};
use logged_calls::Stopped;
use sequence_rules::MOST_CALLS_DEEP;
use target_machine::Target;

impl<'a> LoggedRunner<'a> {
    // A debug variable gets its value.
    #[tactic(auto, unfolding(sequence_rules::specs::Values::stored_value, sequence_rules::specs::Calls::guarded_rest, sequence_rules::specs::Direct::direct))]
    fn define(
        &self,
        name: &'a Name,
        expr: &'a Expr,
        walked: &mut Walked<'a>,
        target: &mut Target,
    ) -> Result<(), Stopped>
        ensures gives { WalksAs walked.old target.old walked.new target.new result (definition_in_walk self.now name.now (tree expr.now)) }
        ensures noted { SeesWalk self.now.turns walked.old target.old walked.new result (λ s shows. defined_events shows self.now name.now (tree expr.now) s) }
    {
        let number = self.evaluate(expr, 0, walked, target)?;
        walked.store(name.text.as_str(), number);
        walked.assign(name.text.as_str(), number)
    }

    // A statement of the debug variables.
    fn define_one(
        &self,
        one: &'a Stmt,
        walked: &mut Walked<'a>,
        target: &mut Target,
    ) -> Result<(), Stopped>
        ensures gives { WalksAs walked.old target.old walked.new target.new result (debug_statement_in_walk self.now (stmt_tree one.now)) }
        ensures noted { SeesWalk self.now.turns walked.old target.old walked.new result (λ s shows. one_events shows self.now (stmt_tree one.now) s) }
    {
        match one {
            Stmt::Declare(name, expr) => {
                walked.begin_debug(one)?;
                self.define(name, expr, walked, target)
            }
            Stmt::Empty(_) | Stmt::Plain(_, _) => Ok(()),
        }
    }

    // The debug variables get their values, in order.
    #[tactic(auto)]
    fn define_all(
        &self,
        code: &'a [Stmt],
        walked: &mut Walked<'a>,
        target: &mut Target,
    ) -> Result<(), Stopped>
        ensures gives { WalksAs walked.old target.old walked.new target.new result (debug_variables_in_walk self.now code.now) }
        ensures noted { SeesWalk self.now.turns walked.old target.old walked.new result (debugged_seen self.now code.now) }
    {
        for one in code {
            self.define_one(one, walked, target)?;
        }
        Ok(())
    }

    // A run: the debug variables, and then the sequence of the name, in a chain of at most 32 sequences.
    #[tactic(auto, unfolding(sequence_rules::specs::Steps::run_of))]
    pub(crate) fn run_all(
        &self,
        start: &'a str,
        walked: &mut Walked<'a>,
        target: &mut Target,
    ) -> Result<(), Stopped>
        ensures gives { WalksAs walked.old target.old walked.new target.new result (run_in_walk self.now start.now) }
        ensures noted { SeesWalk self.now.turns walked.old target.old walked.new result (run_seen self.now start.now) }
    {
        self.define_all(self.set.debugvars().as_slice(), walked, target)?;
        self.run_steps(
            start,
            &[],
            self.steps_of(start),
            MOST_CALLS_DEEP,
            walked,
            target,
        )
    }
}
