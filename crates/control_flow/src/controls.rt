//! Controls, their turns, and polls.
ghost use Rattle.std.specs.Prelude.{◌≤◌, Option, None, Some, option_map};
ghost use Rattle.expr_grammar.specs.Tree.{tree};
ghost use Rattle.sequence_trees.specs.Trees.{steps_tree};
ghost use Rattle.function_calls.specs.Frame.{IsReadyToCall, RunsWriting};
ghost use Rattle.control_flow.specs.Parts.{late_condition_of, late_control_of, late_inside_of, late_loop_of, late_repeat_of, late_turn_of, late_turns_of};

use crate::polling::run_poll;
use crate::runner::Runner;
use access_calls::Access;
use dap_base::Sink;
use expr_grammar::Expr;
use function_calls::{End, Held};
use sequence_rules::{poll_of, turn_count};
use sequence_trees::CheckedStep;

impl Runner<'_> {
    // A control.
    #[cycle(eval)]
    #[tactic(auto, unfolding(sequence_rules::specs::Steps::control_result), using(crate::proofs::Exits::goes_on))]
    pub(crate) fn run_control<A: Access, K: Sink>(
        &self,
        cond: &Option<Expr>,
        repeat: &Option<Expr>,
        timeout: Option<u64>,
        steps: &[CheckedStep],
        depth: u32,
        held: &mut Held,
        access: &mut A,
        sink: &mut K,
    ) -> Result<(), End>
        requires ready { IsReadyToCall held.old.units (A.reported access.old) }
        ensures { RunsWriting (late_control_of self.now depth (option_map tree cond.now) (option_map tree repeat.now) timeout (steps_tree steps.now))
            A.cost A.begun A.reported A.identity K.written K.faults held.old access.old sink.old held.new access.new sink.new result }
    {
        if self.test_condition(cond, depth, held, access, sink)? {
            self.repeat_steps(repeat, timeout, steps, depth, held, access, sink)
        } else {
            Ok(())
        }
    }

    // A condition that is there.
    #[cycle(eval)]
    #[tactic(auto, unfolding(sequence_rules::specs::Steps::condition), using(crate::proofs::Exits::goes_on))]
    fn test_condition<A: Access, K: Sink>(
        &self,
        cond: &Option<Expr>,
        depth: u32,
        held: &mut Held,
        access: &mut A,
        sink: &mut K,
    ) -> Result<bool, End>
        requires ready { IsReadyToCall held.old.units (A.reported access.old) }
        ensures { RunsWriting (late_condition_of self.now depth (option_map tree cond.now))
            A.cost A.begun A.reported A.identity K.written K.faults held.old access.old sink.old held.new access.new sink.new result }
    {
        match cond {
            None => Ok(true),
            Some(expr) => self.is_true(expr, depth, held, access, sink),
        }
    }

    // Whether an expression is not 0.
    #[cycle(eval)]
    #[tactic(auto, unfolding(sequence_rules::specs::Steps::condition), using(crate::proofs::Exits::goes_on))]
    fn is_true<A: Access, K: Sink>(
        &self,
        expr: &Expr,
        depth: u32,
        held: &mut Held,
        access: &mut A,
        sink: &mut K,
    ) -> Result<bool, End>
        requires ready { IsReadyToCall held.old.units (A.reported access.old) }
        ensures { RunsWriting (late_condition_of self.now depth (Some (tree expr.now)))
            A.cost A.begun A.reported A.identity K.written K.faults held.old access.old sink.old held.new access.new sink.new result }
    {
        let number = self.evaluate_number(expr, depth, held, access, sink)?;
        Ok(number != 0)
    }

    // The steps of a control, once or in turns.
    #[cycle(eval)]
    #[tactic(auto, unfolding(sequence_rules::specs::Steps::repeat_result, sequence_rules::specs::Calls::value_or_missing, sequence_rules::specs::Calls::missing), using(crate::proofs::Exits::goes_on))]
    fn repeat_steps<A: Access, K: Sink>(
        &self,
        repeat: &Option<Expr>,
        timeout: Option<u64>,
        steps: &[CheckedStep],
        depth: u32,
        held: &mut Held,
        access: &mut A,
        sink: &mut K,
    ) -> Result<(), End>
        requires ready { IsReadyToCall held.old.units (A.reported access.old) }
        ensures { RunsWriting (late_repeat_of self.now depth (option_map tree repeat.now) timeout (steps_tree steps.now))
            A.cost A.begun A.reported A.identity K.written K.faults held.old access.old sink.old held.new access.new sink.new result }
    {
        match repeat {
            None => self.run_inside(steps, depth, held, access, sink),
            Some(expr) => self.run_loop(
                expr,
                turn_count(self.turn_us, timeout),
                steps,
                depth,
                held,
                access,
                sink,
            ),
        }
    }

    // A poll, or turns.
    #[cycle(eval)]
    #[tactic(auto, unfolding(sequence_rules::specs::Steps::loop_result), using(crate::proofs::Exits::goes_on))]
    fn run_loop<A: Access, K: Sink>(
        &self,
        expr: &Expr,
        count: u32,
        steps: &[CheckedStep],
        depth: u32,
        held: &mut Held,
        access: &mut A,
        sink: &mut K,
    ) -> Result<(), End>
        requires least { 1 ≤ count }
        requires most { count ≤ 60000000 }
        requires ready { IsReadyToCall held.old.units (A.reported access.old) }
        ensures { RunsWriting (late_loop_of self.now depth (tree expr.now) count (steps_tree steps.now))
            A.cost A.begun A.reported A.identity K.written K.faults held.old access.old sink.old held.new access.new sink.new result }
    {
        match poll_of(expr, steps) {
            Some((mask, requested)) => run_poll(mask, requested, count, held, access),
            None => self.run_turns(expr, count, steps, depth, held, access, sink),
        }
    }

    // At most so many turns.
    #[cycle(eval)]
    #[tactic(auto, unfolding(sequence_rules::specs::Steps::turns), using(crate::proofs::Exits::goes_on))]
    fn run_turns<A: Access, K: Sink>(
        &self,
        expr: &Expr,
        count: u32,
        steps: &[CheckedStep],
        depth: u32,
        held: &mut Held,
        access: &mut A,
        sink: &mut K,
    ) -> Result<(), End>
        requires ready { IsReadyToCall held.old.units (A.reported access.old) }
        ensures { RunsWriting (late_turns_of self.now depth (tree expr.now) count (steps_tree steps.now))
            A.cost A.begun A.reported A.identity K.written K.faults held.old access.old sink.old held.new access.new sink.new result }
    {
        let mut left = count;
        while left > 0 {
            match self.run_turn(expr, steps, depth, held, access, sink) {
                Ok(true) => left -= 1,
                Ok(false) => return Ok(()),
                Err(end) => return Err(end),
            }
        }
        Ok(())
    }

    // One turn: whether another may follow.
    #[cycle(eval)]
    #[tactic(auto, unfolding(sequence_rules::specs::Steps::turn), using(crate::proofs::Exits::goes_on))]
    fn run_turn<A: Access, K: Sink>(
        &self,
        expr: &Expr,
        steps: &[CheckedStep],
        depth: u32,
        held: &mut Held,
        access: &mut A,
        sink: &mut K,
    ) -> Result<bool, End>
        requires ready { IsReadyToCall held.old.units (A.reported access.old) }
        ensures { RunsWriting (late_turn_of self.now depth (tree expr.now) (steps_tree steps.now))
            A.cost A.begun A.reported A.identity K.written K.faults held.old access.old sink.old held.new access.new sink.new result }
    {
        match held.count_step() {
            Ok(()) => {}
            Err(cause) => return Err(End::Halted(cause)),
        }
        let number = self.evaluate_number(expr, depth, held, access, sink)?;
        if number == 0 {
            return Ok(false);
        }
        self.run_inside(steps, depth, held, access, sink)?;
        Ok(true)
    }

    // Steps whose declarations are not visible after them.
    #[cycle(eval)]
    #[tactic(auto, unfolding(sequence_rules::specs::Steps::inside), using(crate::proofs::Exits::goes_on))]
    pub(crate) fn run_inside<A: Access, K: Sink>(
        &self,
        steps: &[CheckedStep],
        depth: u32,
        held: &mut Held,
        access: &mut A,
        sink: &mut K,
    ) -> Result<(), End>
        requires ready { IsReadyToCall held.old.units (A.reported access.old) }
        ensures { RunsWriting (late_inside_of self.now depth (steps_tree steps.now))
            A.cost A.begun A.reported A.identity K.written K.faults held.old access.old sink.old held.new access.new sink.new result }
    {
        let count = held.local_count();
        self.run_steps(steps, depth, held, access, sink)?;
        held.cut_back(count);
        Ok(())
    }
}
