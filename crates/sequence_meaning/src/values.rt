//! The values of expressions.
ghost use Rattle.expr_grammar.specs.Arithmetic.{truth};
ghost use Rattle.std.specs.Prelude.{◌≡◌};
ghost use Rattle.sequence_meaning.specs.Frame.{RunsDirect};
ghost use Rattle.sequence_meaning.specs.Parts.{and_meaning, assignment_meaning, binary_meaning, choice_meaning, or_meaning, strict_meaning, unary_meaning, value_meaning};
ghost use Rattle.expr_grammar.specs.Tree.{tree};

use crate::end::{DirectEnd, Stopped};
use crate::held::DirectHeld;
use crate::runner::DirectRunner;
use dap_base::Sink;
use expr_grammar::{BinaryOp, Expr, Name, UnaryOp, binary_value, unary_value};
use target_machine::{HaltCause, Target};

impl DirectRunner<'_> {
    // The value of an expression.
    #[cycle(eval)]
    #[tactic(auto, unfolding(crate::proofs::Opened::expressions))]
    pub(crate) fn evaluate<K: Sink>(
        &self,
        expr: &Expr,
        depth: u32,
        held: &mut DirectHeld,
        target: &mut Target,
        sink: &mut K,
    ) -> Result<u64, Stopped>
        ensures { RunsDirect (value_meaning self.now depth (tree expr.now))
            K.written K.faults held.old target.old sink.old held.new target.new sink.new result }
    {
        match expr {
            Expr::Number(number) => Ok(*number),
            Expr::Name(name) => Ok(held.get_visible(name.text.as_str())),
            Expr::Group(inner) => self.evaluate(inner, depth, held, target, sink),
            Expr::Unary(op, operand) => self.evaluate_unary(
                *op, operand, depth, held, target, sink,
            ),
            Expr::Binary(op, left, right) => self.evaluate_binary(
                *op, left, right, depth, held, target, sink,
            ),
            Expr::Cond(test, first, second) => self.evaluate_choice(
                test, first, second, depth, held, target, sink,
            ),
            Expr::Assign(name, right) => self.assign(name, right, depth, held, target, sink),
            Expr::Call(called, args) => self.call(
                called,
                args.as_slice(),
                depth,
                held,
                target,
                sink,
            ),
        }
    }

    // The value of an operand or an argument. Most are numbers or names, which are taken here, without a call for each.
    #[cycle(eval)]
    #[tactic(auto, unfolding(crate::proofs::Opened::expressions))]
    pub(crate) fn evaluate_operand<K: Sink>(
        &self,
        expr: &Expr,
        depth: u32,
        held: &mut DirectHeld,
        target: &mut Target,
        sink: &mut K,
    ) -> Result<u64, Stopped>
        ensures { RunsDirect (value_meaning self.now depth (tree expr.now))
            K.written K.faults held.old target.old sink.old held.new target.new sink.new result }
    {
        match expr {
            Expr::Number(number) => Ok(*number),
            Expr::Name(name) => Ok(held.get_visible(name.text.as_str())),
            _ => self.evaluate(expr, depth, held, target, sink),
        }
    }

    // An operator before its operand.
    #[cycle(eval)]
    #[tactic(auto, unfolding(crate::proofs::Opened::unary_operators), using(crate::proofs::StopLemmas::unary_ends))]
    fn evaluate_unary<K: Sink>(
        &self,
        op: UnaryOp,
        operand: &Expr,
        depth: u32,
        held: &mut DirectHeld,
        target: &mut Target,
        sink: &mut K,
    ) -> Result<u64, Stopped>
        ensures { RunsDirect (unary_meaning self.now depth op (tree operand.now))
            K.written K.faults held.old target.old sink.old held.new target.new sink.new result }
    {
        let number = self.evaluate(operand, depth, held, target, sink)?;
        Ok(unary_value(op, number))
    }

    // An operator of two operands that are both evaluated.
    #[cycle(eval)]
    #[tactic(auto, unfolding(crate::proofs::Opened::strict_operators), using(crate::proofs::StopLemmas::strict_ends))]
    fn evaluate_strict<K: Sink>(
        &self,
        op: BinaryOp,
        left: &Expr,
        right: &Expr,
        depth: u32,
        held: &mut DirectHeld,
        target: &mut Target,
        sink: &mut K,
    ) -> Result<u64, Stopped>
        ensures { RunsDirect (strict_meaning self.now depth op (tree left.now) (tree right.now))
            K.written K.faults held.old target.old sink.old held.new target.new sink.new result }
    {
        let left = self.evaluate_operand(left, depth, held, target, sink)?;
        let right = self.evaluate_operand(right, depth, held, target, sink)?;
        match binary_value(op, left, right) {
            Some(number) => Ok(number),
            None => {
                held.end = DirectEnd::Halted(HaltCause::DivideByZero);
                Err(Stopped)
            }
        }
    }

    // The right side counts only where the left one is not 0.
    #[cycle(eval)]
    #[tactic(auto, unfolding(crate::proofs::Opened::conjunctions), using(crate::proofs::StopLemmas::and_ends))]
    fn evaluate_and<K: Sink>(
        &self,
        left: &Expr,
        right: &Expr,
        depth: u32,
        held: &mut DirectHeld,
        target: &mut Target,
        sink: &mut K,
    ) -> Result<u64, Stopped>
        ensures { RunsDirect (and_meaning self.now depth (tree left.now) (tree right.now))
            K.written K.faults held.old target.old sink.old held.new target.new sink.new result }
    {
        if self.evaluate(left, depth, held, target, sink)? == 0 {
            return Ok(0);
        }
        let right = self.evaluate(right, depth, held, target, sink)?;
        Ok(truth(right != 0))
    }

    // The right side counts only where the left one is 0.
    #[cycle(eval)]
    #[tactic(auto, unfolding(crate::proofs::Opened::disjunctions), using(crate::proofs::StopLemmas::or_ends))]
    fn evaluate_or<K: Sink>(
        &self,
        left: &Expr,
        right: &Expr,
        depth: u32,
        held: &mut DirectHeld,
        target: &mut Target,
        sink: &mut K,
    ) -> Result<u64, Stopped>
        ensures { RunsDirect (or_meaning self.now depth (tree left.now) (tree right.now))
            K.written K.faults held.old target.old sink.old held.new target.new sink.new result }
    {
        if self.evaluate(left, depth, held, target, sink)? != 0 {
            return Ok(1);
        }
        let right = self.evaluate(right, depth, held, target, sink)?;
        Ok(truth(right != 0))
    }

    // An operator between its operands.
    #[cycle(eval)]
    #[tactic(auto, unfolding(sequence_rules::specs::Values::of_binary))]
    fn evaluate_binary<K: Sink>(
        &self,
        op: BinaryOp,
        left: &Expr,
        right: &Expr,
        depth: u32,
        held: &mut DirectHeld,
        target: &mut Target,
        sink: &mut K,
    ) -> Result<u64, Stopped>
        ensures { RunsDirect (binary_meaning self.now depth op (tree left.now) (tree right.now))
            K.written K.faults held.old target.old sink.old held.new target.new sink.new result }
    {
        match op {
            BinaryOp::And => self.evaluate_and(left, right, depth, held, target, sink),
            BinaryOp::Or => self.evaluate_or(left, right, depth, held, target, sink),
            _ => self.evaluate_strict(op, left, right, depth, held, target, sink),
        }
    }

    // One of two, by a condition.
    #[cycle(eval)]
    #[tactic(auto, unfolding(crate::proofs::Opened::choices), using(crate::proofs::StopLemmas::choice_ends))]
    fn evaluate_choice<K: Sink>(
        &self,
        test: &Expr,
        first: &Expr,
        second: &Expr,
        depth: u32,
        held: &mut DirectHeld,
        target: &mut Target,
        sink: &mut K,
    ) -> Result<u64, Stopped>
        ensures { RunsDirect (choice_meaning self.now depth (tree test.now) (tree first.now) (tree second.now))
            K.written K.faults held.old target.old sink.old held.new target.new sink.new result }
    {
        if self.evaluate(test, depth, held, target, sink)? == 0 {
            self.evaluate(second, depth, held, target, sink)
        } else {
            self.evaluate(first, depth, held, target, sink)
        }
    }

    // An assignment.
    #[cycle(eval)]
    #[tactic(auto, using(crate::proofs::StopLemmas::assignment_ends))]
    fn assign<K: Sink>(
        &self,
        name: &Name,
        right: &Expr,
        depth: u32,
        held: &mut DirectHeld,
        target: &mut Target,
        sink: &mut K,
    ) -> Result<u64, Stopped>
        ensures { RunsDirect (assignment_meaning self.now depth name.now (tree right.now))
            K.written K.faults held.old target.old sink.old held.new target.new sink.new result }
    {
        let number = self.evaluate(right, depth, held, target, sink)?;
        held.store(name.text.as_str(), number);
        Ok(number)
    }
}

// 1 where it is so, and 0 where it is not.
fn truth(test: bool) -> u64
    ensures { result ≡ truth test }
{
    if test { 1 } else { 0 }
}
