//! Steps and statements.
ghost use Rattle.std.specs.Prelude.{◌≡◌, [], ◌∷◌, ◌++◌, ◌<◌, false, IfOk};
ghost use Rattle.sequence_rules.specs.Direct.{direct};
ghost use Rattle.sequence_rules.specs.Steps as m;
ghost use Rattle.target_machine.specs.State.{TargetState};
ghost use Rattle.logged_runs.specs.OfSteps.{block_in_walk, block_seen, declaration_in_walk, declared_seen, done_seen, dropped_in_walk};
ghost use Rattle.logged_runs.specs.OfSteps.{dropped_seen, inner_seen, statement_in_walk, statement_seen, step_in_walk, step_seen, steps_in_walk};
ghost use Rattle.logged_runs.specs.OfSteps.{steps_seen};
ghost use Rattle.logged_runs.specs.Walk.{SeesWalk, WalksAs, seen_so_far};

use crate::runner::LoggedRunner;
use crate::walked::Walked;
use expr_grammar::{Expr, Name, Stmt};
use logged_calls::{LoggedEnd, Stopped};
use sequence_rules::MOST_STEPS;
use sequence_trees::CheckedStep;
use smallvec::SmallVec;
use std::alloc::{AllocError, Global};
use target_machine::{HaltCause, Target};

impl<'a> LoggedRunner<'a> {
    // The steps inside the one at the path, in order.
    #[cycle(walk)]
    #[tactic(auto, unfolding(sequence_rules::specs::Steps::steps_result, run_events::specs::OfSteps::steps_events), using(crate::proofs::LoopEnds::looping))]
    pub(crate) fn run_steps(
        &self,
        sequence: &'a str,
        path: &[u64],
        steps: &'a [CheckedStep],
        depth: u32,
        walked: &mut Walked<'a>,
        target: &mut Target,
    ) -> Result<(), Stopped>
        ensures gives { WalksAs walked.old target.old walked.new target.new result (steps_in_walk self.now depth steps.now) }
        ensures noted { SeesWalk self.now.turns walked.old target.old walked.new result (steps_seen self.now depth sequence.now path.now steps.now) }
    {
        for (number, step) in steps.iter().enumerate() {
            self.run_inner(sequence, path, number as u64, step, depth, walked, target)?;
        }
        Ok(())
    }

    // The step of this number inside the one at the path.
    #[cycle(walk)]
    fn run_inner(
        &self,
        sequence: &'a str,
        path: &[u64],
        number: u64,
        step: &'a CheckedStep,
        depth: u32,
        walked: &mut Walked<'a>,
        target: &mut Target,
    ) -> Result<(), Stopped>
        ensures gives { WalksAs walked.old target.old walked.new target.new result (step_in_walk self.now depth step.now) }
        ensures noted { SeesWalk self.now.turns walked.old target.old walked.new result (inner_seen self.now depth sequence.now path.now number step.now) }
    {
        let Ok(path) = inner_path(self.alloc, path, number) else {
            walked.held.end = LoggedEnd::OutOfMemory;
            return Err(Stopped);
        };
        self.run_step(sequence, path.as_slice(), step, depth, walked, target)
    }

    // The step at the path.
    #[cycle(walk)]
    #[tactic(auto, unfolding(sequence_rules::specs::Steps::step, run_events::specs::OfSteps::step_events))]
    fn run_step(
        &self,
        sequence: &'a str,
        path: &[u64],
        step: &'a CheckedStep,
        depth: u32,
        walked: &mut Walked<'a>,
        target: &mut Target,
    ) -> Result<(), Stopped>
        ensures gives { WalksAs walked.old target.old walked.new target.new result (step_in_walk self.now depth step.now) }
        ensures noted { SeesWalk self.now.turns walked.old target.old walked.new result (step_seen self.now depth sequence.now path.now step.now) }
    {
        match step {
            CheckedStep::Block(code) => {
                self.run_block(sequence, path, code.as_slice(), depth, walked, target)
            }
            CheckedStep::Control {
                cond,
                repeat,
                timeout,
                steps,
            } => self.run_control(
                sequence,
                path,
                cond,
                repeat,
                *timeout,
                steps.as_slice(),
                depth,
                walked,
                target,
            ),
        }
    }

    // The statements of a block, in order.
    #[cycle(walk)]
    #[tactic(auto, unfolding(sequence_rules::specs::Steps::block, run_events::specs::OfSteps::block_events), using(crate::proofs::LoopEnds::looping))]
    fn run_block(
        &self,
        sequence: &'a str,
        path: &[u64],
        code: &'a [Stmt],
        depth: u32,
        walked: &mut Walked<'a>,
        target: &mut Target,
    ) -> Result<(), Stopped>
        ensures gives { WalksAs walked.old target.old walked.new target.new result (block_in_walk self.now depth code.now) }
        ensures noted { SeesWalk self.now.turns walked.old target.old walked.new result (block_seen self.now depth sequence.now path.now code.now) }
    {
        for one in code {
            self.run_statement(sequence, path, one, depth, walked, target)?;
        }
        Ok(())
    }

    // A statement, from its place on.
    #[cycle(walk)]
    #[tactic(auto, unfolding(run_events::specs::OfSteps::statement_events))]
    fn run_statement(
        &self,
        sequence: &'a str,
        path: &[u64],
        one: &'a Stmt,
        depth: u32,
        walked: &mut Walked<'a>,
        target: &mut Target,
    ) -> Result<(), Stopped>
        ensures gives { WalksAs walked.old target.old walked.new target.new result (statement_in_walk self.now depth one.now) }
        ensures noted { SeesWalk self.now.turns walked.old target.old walked.new result (statement_seen self.now depth sequence.now path.now one.now) }
    {
        walked.begin(sequence, path, one)?;
        self.do_statement(one, depth, walked, target)
    }

    // A statement, after its place is noted.
    #[cycle(walk)]
    #[tactic(auto, unfolding(sequence_rules::specs::Steps::statement, run_events::specs::OfSteps::done_events), using(crate::proofs::WalkLemmas::quiet_only))]
    fn do_statement(
        &self,
        one: &'a Stmt,
        depth: u32,
        walked: &mut Walked<'a>,
        target: &mut Target,
    ) -> Result<(), Stopped>
        ensures gives { WalksAs walked.old target.old walked.new target.new result (statement_in_walk self.now depth one.now) }
        ensures noted { SeesWalk self.now.turns walked.old target.old walked.new result (done_seen self.now depth one.now) }
    {
        match one {
            Stmt::Empty(_) => count_step(walked),
            Stmt::Declare(name, expr) => self.declare(name, expr, depth, walked, target),
            Stmt::Plain(_, expr) => self.run_expression(expr, depth, walked, target),
        }
    }

    // A declaration.
    #[cycle(walk)]
    #[tactic(auto, unfolding(crate::proofs::Opened::declarations), using(crate::proofs::Ends::ends_counted, crate::proofs::Ends::declare_value))]
    fn declare(
        &self,
        name: &'a Name,
        expr: &'a Expr,
        depth: u32,
        walked: &mut Walked<'a>,
        target: &mut Target,
    ) -> Result<(), Stopped>
        ensures gives { WalksAs walked.old target.old walked.new target.new result (declaration_in_walk self.now depth name.now expr.now) }
        ensures noted { SeesWalk self.now.turns walked.old target.old walked.new result (declared_seen self.now depth name.now expr.now) }
    {
        count_step(walked)?;
        let number = self.evaluate(expr, depth, walked, target)?;
        let Ok(()) = walked.declare(self.alloc, &name.text, number) else {
            walked.held.end = LoggedEnd::OutOfMemory;
            return Err(Stopped);
        };
        walked.assign(name.text.as_str(), number)
    }

    // An expression whose value is dropped.
    #[cycle(walk)]
    #[tactic(auto, unfolding(crate::proofs::Opened::dropped_values), using(crate::proofs::Ends::ends_counted, crate::proofs::Ends::plain_value))]
    fn run_expression(
        &self,
        expr: &'a Expr,
        depth: u32,
        walked: &mut Walked<'a>,
        target: &mut Target,
    ) -> Result<(), Stopped>
        ensures gives { WalksAs walked.old target.old walked.new target.new result (dropped_in_walk self.now depth expr.now) }
        ensures noted { SeesWalk self.now.turns walked.old target.old walked.new result (dropped_seen self.now depth expr.now) }
    {
        count_step(walked)?;
        self.evaluate(expr, depth, walked, target)?;
        Ok(())
    }
}

// The path of the step of this number inside the one at the path. A path of up to four numbers takes no memory of its own.
fn inner_path(alloc: Global, path: &[u64], number: u64) -> Result<SmallVec<u64, 4>, AllocError>
    ensures { IfOk result (λ inner. inner.items ≡ path.now ++ number ∷ []) }
{
    let mut inner = SmallVec::from_slice(alloc, path)?;
    inner.push(number)?;
    Ok(inner)
}

// Counts a step.
#[tactic(auto, unfolding(sequence_rules::specs::Steps::counted_step))]
pub(crate) fn count_step(walked: &mut Walked) -> Result<(), Stopped>
    ensures gives { (target : TargetState) → WalksAs walked.old target walked.new target result (m.counted_step (direct false)) }
    ensures seen { seen_so_far walked.new ≡ seen_so_far walked.old }
{
    if walked.held.steps >= MOST_STEPS {
        walked.held.end = LoggedEnd::Halted(HaltCause::StepLimit);
        return Err(Stopped);
    }
    walked.held.steps += 1;
    Ok(())
}
