//! Controls and their turns.
ghost use Rattle.std.specs.Prelude.{◌≡◌, ◌<◌, ◌≤◌, ℕ, Some, false};
ghost use Rattle.sequence_rules.specs.Direct.{direct};
ghost use Rattle.sequence_rules.specs.Steps as m;
ghost use Rattle.logged_runs.specs.OfSteps.{begun_seen, condition_in_walk, condition_seen, control_in_walk, control_seen, inside_in_walk};
ghost use Rattle.logged_runs.specs.OfSteps.{loop_in_walk, loop_seen, poll_seen, repeat_in_walk, repeat_seen, steps_seen, tested_in_walk};
ghost use Rattle.logged_runs.specs.OfSteps.{tested_seen, turn_in_walk, turn_seen, turns_in_walk, turns_seen};
ghost use Rattle.logged_runs.specs.Walk.{SeesWalk, WalksAs, kept_log};

use crate::runner::LoggedRunner;
use crate::steps::count_step;
use crate::walked::Walked;
use expr_grammar::Expr;
use log_lines::{EventLog, LogMark};
use logged_calls::Stopped;
use sequence_rules::{poll_of, turn_count};
use sequence_trees::CheckedStep;
use target_machine::Target;

impl<'a> LoggedRunner<'a> {
    // A control.
    #[cycle(walk)]
    #[tactic(auto, unfolding(sequence_rules::specs::Steps::control_result, run_events::specs::OfSteps::controlled_events), using(crate::proofs::Ends::ends_control))]
    pub(crate) fn run_control(
        &self,
        sequence: &'a str,
        path: &[u64],
        cond: &'a Option<Expr>,
        repeat: &'a Option<Expr>,
        timeout: Option<u64>,
        steps: &'a [CheckedStep],
        depth: u32,
        walked: &mut Walked<'a>,
        target: &mut Target,
    ) -> Result<(), Stopped>
        ensures gives { WalksAs walked.old target.old walked.new target.new result (control_in_walk self.now depth cond.now repeat.now timeout steps.now) }
        ensures noted { SeesWalk self.now.turns walked.old target.old walked.new result
            (control_seen self.now depth sequence.now path.now cond.now repeat.now timeout steps.now) }
    {
        let chosen = self.test_condition(sequence, path, cond, depth, walked, target)?;
        if chosen {
            self.repeat_steps(
                sequence, path, repeat, timeout, steps, depth, walked, target,
            )
        } else {
            Ok(())
        }
    }

    // A condition that is there.
    #[cycle(walk)]
    #[tactic(auto, unfolding(sequence_rules::specs::Steps::condition, run_events::specs::OfSteps::condition_events), using(crate::proofs::NoteLemmas::notes_none))]
    fn test_condition(
        &self,
        sequence: &'a str,
        path: &[u64],
        cond: &'a Option<Expr>,
        depth: u32,
        walked: &mut Walked<'a>,
        target: &mut Target,
    ) -> Result<bool, Stopped>
        ensures gives { WalksAs walked.old target.old walked.new target.new result (condition_in_walk self.now depth cond.now) }
        ensures noted { SeesWalk self.now.turns walked.old target.old walked.new result (condition_seen self.now depth sequence.now path.now cond.now) }
    {
        match cond {
            None => Ok(true),
            Some(expr) => self.choose(sequence, path, expr, depth, walked, target),
        }
    }

    // Whether the `if` of a control is not 0.
    #[cycle(walk)]
    #[tactic(auto, unfolding(crate::proofs::Opened::conditions), using(crate::proofs::Ends::ends_condition))]
    fn choose(
        &self,
        sequence: &'a str,
        path: &[u64],
        expr: &'a Expr,
        depth: u32,
        walked: &mut Walked<'a>,
        target: &mut Target,
    ) -> Result<bool, Stopped>
        ensures gives { WalksAs walked.old target.old walked.new target.new result (condition_in_walk self.now depth (Some expr.now)) }
        ensures noted { SeesWalk self.now.turns walked.old target.old walked.new result (condition_seen self.now depth sequence.now path.now (Some expr.now)) }
    {
        walked.test(sequence, path, expr)?;
        let number = self.evaluate(expr, depth, walked, target)?;
        walked.choose(sequence, path, number)?;
        Ok(number != 0)
    }

    // The steps of a control, once or in turns.
    #[cycle(walk)]
    #[tactic(auto, unfolding(crate::proofs::Opened::repeats))]
    fn repeat_steps(
        &self,
        sequence: &'a str,
        path: &[u64],
        repeat: &'a Option<Expr>,
        timeout: Option<u64>,
        steps: &'a [CheckedStep],
        depth: u32,
        walked: &mut Walked<'a>,
        target: &mut Target,
    ) -> Result<(), Stopped>
        ensures gives { WalksAs walked.old target.old walked.new target.new result (repeat_in_walk self.now depth repeat.now timeout steps.now) }
        ensures noted { SeesWalk self.now.turns walked.old target.old walked.new result (repeat_seen self.now depth sequence.now path.now repeat.now timeout steps.now) }
    {
        match repeat {
            None => self.run_inside(sequence, path, steps, depth, walked, target),
            Some(expr) => self.begin_loop(
                sequence,
                path,
                expr,
                turn_count(self.turn_us, timeout),
                steps,
                depth,
                walked,
                target,
            ),
        }
    }

    // A loop, from its place on.
    #[cycle(walk)]
    fn begin_loop(
        &self,
        sequence: &'a str,
        path: &[u64],
        expr: &'a Expr,
        count: u32,
        steps: &'a [CheckedStep],
        depth: u32,
        walked: &mut Walked<'a>,
        target: &mut Target,
    ) -> Result<(), Stopped>
        requires least { 1 ≤ count }
        requires most { count ≤ 60000000 }
        ensures gives { WalksAs walked.old target.old walked.new target.new result (loop_in_walk self.now depth expr.now count steps.now) }
        ensures noted { SeesWalk self.now.turns walked.old target.old walked.new result (begun_seen self.now depth sequence.now path.now expr.now count steps.now) }
    {
        walked.begin_loop(sequence, path, expr, count)?;
        self.run_loop(sequence, path, expr, count, steps, depth, walked, target)
    }

    // A poll, or turns.
    #[cycle(walk)]
    #[tactic(auto, unfolding(sequence_rules::specs::Steps::loop_result, run_events::specs::OfSteps::loop_events))]
    fn run_loop(
        &self,
        sequence: &'a str,
        path: &[u64],
        expr: &'a Expr,
        count: u32,
        steps: &'a [CheckedStep],
        depth: u32,
        walked: &mut Walked<'a>,
        target: &mut Target,
    ) -> Result<(), Stopped>
        requires least { 1 ≤ count }
        requires most { count ≤ 60000000 }
        ensures gives { WalksAs walked.old target.old walked.new target.new result (loop_in_walk self.now depth expr.now count steps.now) }
        ensures noted { SeesWalk self.now.turns walked.old target.old walked.new result (loop_seen self.now depth sequence.now path.now expr.now count steps.now) }
    {
        match poll_of(expr, steps) {
            Some((mask, requested)) => {
                run_poll(sequence, path, mask, requested, count, walked, target)
            }
            None => self.run_turns(sequence, path, expr, count, steps, depth, walked, target),
        }
    }

    // At most so many turns. A turn that is not shown is taken back from the log where another begins.
    #[cycle(walk)]
    #[tactic(auto, unfolding(sequence_rules::specs::Steps::turns, run_events::specs::OfSteps::turns_events), using(crate::proofs::LoopEnds::turning))]
    fn run_turns(
        &self,
        sequence: &'a str,
        path: &[u64],
        expr: &'a Expr,
        count: u32,
        steps: &'a [CheckedStep],
        depth: u32,
        walked: &mut Walked<'a>,
        target: &mut Target,
    ) -> Result<(), Stopped>
        ensures gives { WalksAs walked.old target.old walked.new target.new result (turns_in_walk self.now depth expr.now count steps.now) }
        ensures noted { SeesWalk self.now.turns walked.old target.old walked.new result (turns_seen self.now depth sequence.now path.now expr.now count steps.now) }
    {
        let mut made = 0;
        let mut mark = walked.held.log.mark();
        while made < count {
            self.drop_turn(made, mark, &mut walked.held.log);
            mark = walked.held.log.mark();
            let more = self.run_turn(sequence, path, made + 1, expr, steps, depth, walked, target)?;
            if !more {
                return walked.leave_loop(sequence, path, made + 1);
            }
            made += 1;
        }
        walked.time_out(sequence, path, made)
    }

    // Takes the last of so many turns back from the log, unless it is shown.
    fn drop_turn(&self, made: u32, mark: LogMark, log: &mut EventLog)
        ensures { log.new ≡ kept_log self.now.turns made mark log.old }
    {
        if made > self.turns {
            log.cut(mark);
        }
    }

    // The turn of this number: whether another may follow.
    #[cycle(walk)]
    #[tactic(auto, unfolding(sequence_rules::specs::Steps::turn, run_events::specs::OfSteps::turn_events), using(crate::proofs::Ends::ends_turn))]
    fn run_turn(
        &self,
        sequence: &'a str,
        path: &[u64],
        number: u32,
        expr: &'a Expr,
        steps: &'a [CheckedStep],
        depth: u32,
        walked: &mut Walked<'a>,
        target: &mut Target,
    ) -> Result<bool, Stopped>
        ensures gives { WalksAs walked.old target.old walked.new target.new result (turn_in_walk self.now depth expr.now steps.now) }
        ensures noted { SeesWalk self.now.turns walked.old target.old walked.new result (turn_seen self.now depth sequence.now path.now number expr.now steps.now) }
    {
        walked.turn(sequence, path, number)?;
        count_step(walked)?;
        self.test_turn(sequence, path, expr, steps, depth, walked, target)
    }

    // A turn that was counted.
    #[cycle(walk)]
    #[tactic(auto, unfolding(crate::proofs::Opened::tested_turns), using(crate::proofs::Ends::ends_tested, crate::proofs::Ends::ends_body))]
    fn test_turn(
        &self,
        sequence: &'a str,
        path: &[u64],
        expr: &'a Expr,
        steps: &'a [CheckedStep],
        depth: u32,
        walked: &mut Walked<'a>,
        target: &mut Target,
    ) -> Result<bool, Stopped>
        ensures gives { WalksAs walked.old target.old walked.new target.new result (tested_in_walk self.now depth expr.now steps.now) }
        ensures noted { SeesWalk self.now.turns walked.old target.old walked.new result (tested_seen self.now depth sequence.now path.now expr.now steps.now) }
    {
        let number = self.evaluate(expr, depth, walked, target)?;
        walked.find(number)?;
        if number == 0 {
            return Ok(false);
        }
        self.run_inside(sequence, path, steps, depth, walked, target)?;
        Ok(true)
    }

    // Steps whose declarations are not visible after them.
    #[cycle(walk)]
    #[tactic(auto, unfolding(sequence_rules::specs::Steps::inside), using(crate::proofs::Ends::ends_inside))]
    fn run_inside(
        &self,
        sequence: &'a str,
        path: &[u64],
        steps: &'a [CheckedStep],
        depth: u32,
        walked: &mut Walked<'a>,
        target: &mut Target,
    ) -> Result<(), Stopped>
        ensures gives { WalksAs walked.old target.old walked.new target.new result (inside_in_walk self.now depth steps.now) }
        ensures noted { SeesWalk self.now.turns walked.old target.old walked.new result (steps_seen self.now depth sequence.now path.now steps.now) }
    {
        let count = walked.local_count();
        self.run_steps(sequence, path, steps, depth, walked, target)?;
        walked.cut_back(count);
        Ok(())
    }
}

// A poll of CTRL/STAT: it is counted as one step, and is one unit.
#[tactic(auto, unfolding(sequence_rules::specs::Steps::poll_result, sequence_rules::specs::Steps::poll_result_at, sequence_rules::specs::Steps::dropped_value))]
fn run_poll(
    sequence: &str,
    path: &[u64],
    mask: u32,
    requested: u32,
    count: u32,
    walked: &mut Walked,
    target: &mut Target,
) -> Result<(), Stopped>
    requires least { 1 ≤ count }
    requires most { count ≤ 60000000 }
    ensures gives { WalksAs walked.old target.old walked.new target.new result (m.poll_result (direct false) (mask, requested) count) }
    ensures noted { (turns : ℕ) → SeesWalk turns walked.old target.old walked.new result (poll_seen sequence.now path.now (mask, requested) count) }
{
    count_step(walked)?;
    walked.poll(sequence, path, mask, requested, count, target)
}
