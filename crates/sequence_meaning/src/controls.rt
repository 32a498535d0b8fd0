//! Controls, their turns, and polls.

ghost use Rattle.sequence_rules.specs.Direct.{direct};
ghost use Rattle.sequence_rules.specs.Steps as m;
ghost use Rattle.std.specs.Prelude.{◌≤◌, Some, false, option_map};
ghost use Rattle.sequence_meaning.specs.Frame.{RunsDirect, RunsWithoutSink};
ghost use Rattle.sequence_meaning.specs.Parts.{condition_meaning, control_meaning, inside_meaning, loop_meaning, repeat_meaning, turn_meaning, turns_meaning};
ghost use Rattle.expr_grammar.specs.Tree.{tree};
ghost use Rattle.sequence_trees.specs.Trees.{steps_tree};

use crate::asking::{ask, debug_port};
use crate::end::{DirectEnd, Stopped};
use crate::held::DirectHeld;
use crate::runner::DirectRunner;
use crate::steps::count_step;
use dap_base::Sink;
use expr_grammar::Expr;
use sequence_rules::{poll_of, turn_count};
use sequence_trees::CheckedStep;
use target_machine::{HaltCause, Target, Unit};

impl DirectRunner<'_> {
    // A control.
    #[cycle(eval)]
    #[tactic(auto, unfolding(sequence_rules::specs::Steps::control_result), using(crate::proofs::StopLemmas::control_ends))]
    pub(crate) fn run_control<K: Sink>(
        &self,
        cond: &Option<Expr>,
        repeat: &Option<Expr>,
        timeout: Option<u64>,
        steps: &[CheckedStep],
        depth: u32,
        held: &mut DirectHeld,
        target: &mut Target,
        sink: &mut K,
    ) -> Result<(), Stopped>
        ensures { RunsDirect
            (control_meaning self.now depth (option_map tree cond.now) (option_map tree repeat.now) timeout (steps_tree steps.now))
            K.written K.faults held.old target.old sink.old held.new target.new sink.new result }
    {
        if self.test_condition(cond, depth, held, target, sink)? {
            self.repeat_steps(repeat, timeout, steps, depth, held, target, sink)
        } else {
            Ok(())
        }
    }

    // A condition that is there.
    #[cycle(eval)]
    #[tactic(auto, unfolding(sequence_rules::specs::Steps::condition))]
    fn test_condition<K: Sink>(
        &self,
        cond: &Option<Expr>,
        depth: u32,
        held: &mut DirectHeld,
        target: &mut Target,
        sink: &mut K,
    ) -> Result<bool, Stopped>
        ensures { RunsDirect (condition_meaning self.now depth (option_map tree cond.now))
            K.written K.faults held.old target.old sink.old held.new target.new sink.new result }
    {
        match cond {
            None => Ok(true),
            Some(expr) => self.is_true(expr, depth, held, target, sink),
        }
    }

    // Whether an expression is not 0.
    #[cycle(eval)]
    #[tactic(auto, unfolding(crate::proofs::Opened::conditions), using(crate::proofs::StopLemmas::condition_ends))]
    fn is_true<K: Sink>(
        &self,
        expr: &Expr,
        depth: u32,
        held: &mut DirectHeld,
        target: &mut Target,
        sink: &mut K,
    ) -> Result<bool, Stopped>
        ensures { RunsDirect (condition_meaning self.now depth (Some (tree expr.now)))
            K.written K.faults held.old target.old sink.old held.new target.new sink.new result }
    {
        let number = self.evaluate(expr, depth, held, target, sink)?;
        Ok(number != 0)
    }

    // The steps of a control, once or in turns.
    #[cycle(eval)]
    #[tactic(auto, unfolding(crate::proofs::Opened::repeats))]
    fn repeat_steps<K: Sink>(
        &self,
        repeat: &Option<Expr>,
        timeout: Option<u64>,
        steps: &[CheckedStep],
        depth: u32,
        held: &mut DirectHeld,
        target: &mut Target,
        sink: &mut K,
    ) -> Result<(), Stopped>
        ensures { RunsDirect (repeat_meaning self.now depth (option_map tree repeat.now) timeout (steps_tree steps.now))
            K.written K.faults held.old target.old sink.old held.new target.new sink.new result }
    {
        match repeat {
            None => self.run_inside(steps, depth, held, target, sink),
            Some(expr) => self.run_loop(
                expr,
                turn_count(self.turn_us, timeout),
                steps,
                depth,
                held,
                target,
                sink,
            ),
        }
    }

    // A poll, or turns.
    #[cycle(eval)]
    #[tactic(auto, unfolding(sequence_rules::specs::Steps::loop_result))]
    fn run_loop<K: Sink>(
        &self,
        expr: &Expr,
        count: u32,
        steps: &[CheckedStep],
        depth: u32,
        held: &mut DirectHeld,
        target: &mut Target,
        sink: &mut K,
    ) -> Result<(), Stopped>
        requires least { 1 ≤ count }
        requires most { count ≤ 60000000 }
        ensures { RunsDirect (loop_meaning self.now depth (tree expr.now) count (steps_tree steps.now))
            K.written K.faults held.old target.old sink.old held.new target.new sink.new result }
    {
        match poll_of(expr, steps) {
            Some((mask, requested)) => run_poll(mask, requested, count, held, target),
            None => self.run_turns(expr, count, steps, depth, held, target, sink),
        }
    }

    // At most so many turns.
    #[cycle(eval)]
    #[tactic(auto, unfolding(sequence_rules::specs::Steps::turns), using(crate::proofs::Loops::turning))]
    fn run_turns<K: Sink>(
        &self,
        expr: &Expr,
        count: u32,
        steps: &[CheckedStep],
        depth: u32,
        held: &mut DirectHeld,
        target: &mut Target,
        sink: &mut K,
    ) -> Result<(), Stopped>
        ensures { RunsDirect (turns_meaning self.now depth (tree expr.now) count (steps_tree steps.now))
            K.written K.faults held.old target.old sink.old held.new target.new sink.new result }
    {
        let mut left = count;
        while left > 0 {
            let more = self.run_turn(expr, steps, depth, held, target, sink)?;
            if !more {
                return Ok(());
            }
            left -= 1;
        }
        Ok(())
    }

    // One turn: whether another may follow.
    #[cycle(eval)]
    fn run_turn<K: Sink>(
        &self,
        expr: &Expr,
        steps: &[CheckedStep],
        depth: u32,
        held: &mut DirectHeld,
        target: &mut Target,
        sink: &mut K,
    ) -> Result<bool, Stopped>
        ensures { RunsDirect (turn_meaning self.now depth (tree expr.now) (steps_tree steps.now))
            K.written K.faults held.old target.old sink.old held.new target.new sink.new result }
    {
        count_step(held)?;
        let number = self.evaluate(expr, depth, held, target, sink)?;
        if number == 0 {
            return Ok(false);
        }
        self.run_inside(steps, depth, held, target, sink)?;
        Ok(true)
    }

    // Steps whose declarations are not visible after them.
    #[cycle(eval)]
    #[tactic(auto, using(crate::proofs::StopLemmas::inside_ends))]
    pub(crate) fn run_inside<K: Sink>(
        &self,
        steps: &[CheckedStep],
        depth: u32,
        held: &mut DirectHeld,
        target: &mut Target,
        sink: &mut K,
    ) -> Result<(), Stopped>
        ensures { RunsDirect (inside_meaning self.now depth (steps_tree steps.now))
            K.written K.faults held.old target.old sink.old held.new target.new sink.new result }
    {
        let count = held.local_count();
        self.run_steps(steps, depth, held, target, sink)?;
        held.cut_back(count);
        Ok(())
    }
}

// A poll of CTRL/STAT.
fn run_poll(
    mask: u32,
    requested: u32,
    count: u32,
    held: &mut DirectHeld,
    target: &mut Target,
) -> Result<(), Stopped>
    requires least { 1 ≤ count }
    requires most { count ≤ 60000000 }
    ensures { RunsWithoutSink (m.poll_result (direct false) (mask, requested) count) held.old target.old held.new target.new result }
{
    count_step(held)?;
    if debug_port(held) != 0 {
        held.end = DirectEnd::Halted(HaltCause::Unsupported);
        return Err(Stopped);
    }
    let unit = Unit::Poll {
        mask,
        value: requested,
        turns: count,
    };
    ask(unit, false, held, target)?;
    Ok(())
}
