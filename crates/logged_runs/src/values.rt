//! The values of expressions.
ghost use Rattle.std.specs.Prelude.{◌≡◌, ◌<◌};
ghost use Rattle.expr_grammar.specs.Arithmetic.{truth};
ghost use Rattle.logged_runs.specs.OfValues.{and_in_walk, and_seen, assigned_seen, assignment_in_walk, binary_in_walk, binary_seen, choice_in_walk};
ghost use Rattle.logged_runs.specs.OfValues.{choice_seen, or_in_walk, or_seen, strict_in_walk, strict_seen, unary_in_walk, value_in_walk, value_seen};
ghost use Rattle.logged_runs.specs.Walk.{SeesWalk, WalksAs};

use crate::runner::LoggedRunner;
use crate::walked::Walked;
use expr_grammar::{BinaryOp, Expr, Name, UnaryOp, binary_value, unary_value};
use logged_calls::{LoggedEnd, Stopped};
use target_machine::{HaltCause, Target};

impl<'a> LoggedRunner<'a> {
    // The value of an expression.
    #[cycle(walk)]
    #[tactic(auto, unfolding(crate::proofs::Opened::expressions), using(crate::proofs::NoteLemmas::notes_none))]
    pub(crate) fn evaluate(
        &self,
        expr: &'a Expr,
        depth: u32,
        walked: &mut Walked<'a>,
        target: &mut Target,
    ) -> Result<u64, Stopped>
        ensures gives { WalksAs walked.old target.old walked.new target.new result (value_in_walk self.now depth expr.now) }
        ensures noted { SeesWalk self.now.turns walked.old target.old walked.new result (value_seen self.now depth expr.now) }
    {
        match expr {
            Expr::Number(number) => Ok(*number),
            Expr::Name(name) => Ok(walked.get_visible(name.text.as_str())),
            Expr::Group(inner) => self.evaluate(inner, depth, walked, target),
            Expr::Unary(op, operand) => self.evaluate_unary(*op, operand, depth, walked, target),
            Expr::Binary(op, left, right) => self.evaluate_binary(
                *op, left, right, depth, walked, target,
            ),
            Expr::Cond(test, first, second) => {
                self.evaluate_choice(test, first, second, depth, walked, target)
            }
            Expr::Assign(name, right) => self.assign(name, right, depth, walked, target),
            Expr::Call(called, args) => self.call(called, args.as_slice(), depth, walked, target),
        }
    }

    // An operator before its operand.
    #[cycle(walk)]
    #[tactic(auto, unfolding(crate::proofs::Opened::unary_operators), using(crate::proofs::Ends::ends_unary))]
    fn evaluate_unary(
        &self,
        op: UnaryOp,
        operand: &'a Expr,
        depth: u32,
        walked: &mut Walked<'a>,
        target: &mut Target,
    ) -> Result<u64, Stopped>
        ensures gives { WalksAs walked.old target.old walked.new target.new result (unary_in_walk self.now depth op operand.now) }
        ensures noted { SeesWalk self.now.turns walked.old target.old walked.new result (value_seen self.now depth operand.now) }
    {
        let number = self.evaluate(operand, depth, walked, target)?;
        Ok(unary_value(op, number))
    }

    // An operator of two operands that are both evaluated.
    #[cycle(walk)]
    #[tactic(auto, unfolding(crate::proofs::Opened::strict_operators), using(crate::proofs::Ends::ends_left, crate::proofs::Ends::ends_right))]
    fn evaluate_strict(
        &self,
        op: BinaryOp,
        left: &'a Expr,
        right: &'a Expr,
        depth: u32,
        walked: &mut Walked<'a>,
        target: &mut Target,
    ) -> Result<u64, Stopped>
        ensures gives { WalksAs walked.old target.old walked.new target.new result (strict_in_walk self.now depth op left.now right.now) }
        ensures noted { SeesWalk self.now.turns walked.old target.old walked.new result (strict_seen self.now depth left.now right.now) }
    {
        let left = self.evaluate(left, depth, walked, target)?;
        let right = self.evaluate(right, depth, walked, target)?;
        match binary_value(op, left, right) {
            Some(number) => Ok(number),
            None => {
                walked.held.end = LoggedEnd::Halted(HaltCause::DivideByZero);
                Err(Stopped)
            }
        }
    }

    // The right side counts only where the left one is not 0.
    #[cycle(walk)]
    #[tactic(auto, unfolding(crate::proofs::Opened::conjunctions), using(crate::proofs::Ends::ends_and, crate::proofs::Ends::ends_and_right))]
    fn evaluate_and(
        &self,
        left: &'a Expr,
        right: &'a Expr,
        depth: u32,
        walked: &mut Walked<'a>,
        target: &mut Target,
    ) -> Result<u64, Stopped>
        ensures gives { WalksAs walked.old target.old walked.new target.new result (and_in_walk self.now depth left.now right.now) }
        ensures noted { SeesWalk self.now.turns walked.old target.old walked.new result (and_seen self.now depth left.now right.now) }
    {
        let left = self.evaluate(left, depth, walked, target)?;
        if left == 0 {
            return Ok(0);
        }
        let right = self.evaluate(right, depth, walked, target)?;
        Ok(truth(right != 0))
    }

    // The right side counts only where the left one is 0.
    #[cycle(walk)]
    #[tactic(auto, unfolding(crate::proofs::Opened::disjunctions), using(crate::proofs::Ends::ends_or, crate::proofs::Ends::ends_or_right))]
    fn evaluate_or(
        &self,
        left: &'a Expr,
        right: &'a Expr,
        depth: u32,
        walked: &mut Walked<'a>,
        target: &mut Target,
    ) -> Result<u64, Stopped>
        ensures gives { WalksAs walked.old target.old walked.new target.new result (or_in_walk self.now depth left.now right.now) }
        ensures noted { SeesWalk self.now.turns walked.old target.old walked.new result (or_seen self.now depth left.now right.now) }
    {
        let left = self.evaluate(left, depth, walked, target)?;
        if left != 0 {
            return Ok(1);
        }
        let right = self.evaluate(right, depth, walked, target)?;
        Ok(truth(right != 0))
    }

    // An operator between its operands.
    #[cycle(walk)]
    #[tactic(auto, unfolding(sequence_rules::specs::Values::of_binary))]
    fn evaluate_binary(
        &self,
        op: BinaryOp,
        left: &'a Expr,
        right: &'a Expr,
        depth: u32,
        walked: &mut Walked<'a>,
        target: &mut Target,
    ) -> Result<u64, Stopped>
        ensures gives { WalksAs walked.old target.old walked.new target.new result (binary_in_walk self.now depth op left.now right.now) }
        ensures noted { SeesWalk self.now.turns walked.old target.old walked.new result (binary_seen self.now depth op left.now right.now) }
    {
        match op {
            BinaryOp::And => self.evaluate_and(left, right, depth, walked, target),
            BinaryOp::Or => self.evaluate_or(left, right, depth, walked, target),
            _ => self.evaluate_strict(op, left, right, depth, walked, target),
        }
    }

    // One of two, by a condition.
    #[cycle(walk)]
    #[tactic(auto, unfolding(crate::proofs::Opened::choices), using(crate::proofs::Ends::ends_choice))]
    fn evaluate_choice(
        &self,
        test: &'a Expr,
        first: &'a Expr,
        second: &'a Expr,
        depth: u32,
        walked: &mut Walked<'a>,
        target: &mut Target,
    ) -> Result<u64, Stopped>
        ensures gives { WalksAs walked.old target.old walked.new target.new result (choice_in_walk self.now depth test.now first.now second.now) }
        ensures noted { SeesWalk self.now.turns walked.old target.old walked.new result (choice_seen self.now depth test.now first.now second.now) }
    {
        let number = self.evaluate(test, depth, walked, target)?;
        if number == 0 {
            self.evaluate(second, depth, walked, target)
        } else {
            self.evaluate(first, depth, walked, target)
        }
    }

    // An assignment.
    #[cycle(walk)]
    #[tactic(auto, unfolding(crate::proofs::Opened::assignments), using(crate::proofs::Ends::ends_assigned))]
    fn assign(
        &self,
        name: &'a Name,
        right: &'a Expr,
        depth: u32,
        walked: &mut Walked<'a>,
        target: &mut Target,
    ) -> Result<u64, Stopped>
        ensures gives { WalksAs walked.old target.old walked.new target.new result (assignment_in_walk self.now depth name.now right.now) }
        ensures noted { SeesWalk self.now.turns walked.old target.old walked.new result (assigned_seen self.now depth name.now right.now) }
    {
        let number = self.evaluate(right, depth, walked, target)?;
        walked.store(name.text.as_str(), number);
        walked.assign(name.text.as_str(), number)?;
        Ok(number)
    }
}

// 1 where it is so, and 0 where it is not.
fn truth(test: bool) -> u64
    ensures { result ≡ truth test }
{
    if test { 1 } else { 0 }
}
