//! Operators and their operands.
ghost use Rattle.std.specs.Prelude.{◌≡◌, None};
ghost use Rattle.expr_grammar.specs.Arithmetic.{truth};
ghost use Rattle.expr_grammar.specs.Tree.{tree};
ghost use Rattle.function_calls.specs.Frame.{IsReadyToCall, RunsWriting};
ghost use Rattle.control_flow.specs.Parts.{late_and_of, late_binary_of, late_operands_of, late_or_of, late_strict_of, late_truth_of, late_unary_of};

use crate::runner::Runner;
use access_calls::Access;
use dap_base::Sink;
use expr_grammar::{BinaryOp, Expr, UnaryOp, binary_value, unary_value};
use function_calls::{End, Held, use_both};
use target_calls::Value;
use target_machine::HaltCause;

impl Runner<'_> {
    // An operator before its operand.
    #[inline(never)]
    #[cycle(eval)]
    #[tactic(auto, unfolding(sequence_rules::specs::Values::of_unary), using(crate::proofs::Exits::goes_on))]
    pub(crate) fn evaluate_unary<A: Access, K: Sink>(
        &self,
        op: UnaryOp,
        operand: &Expr,
        depth: u32,
        held: &mut Held,
        access: &mut A,
        sink: &mut K,
    ) -> Result<Value, End>
        requires ready { IsReadyToCall held.old.units (A.reported access.old) }
        ensures { RunsWriting (late_unary_of self.now depth op (tree operand.now))
            A.cost A.begun A.reported A.identity K.written K.faults held.old access.old sink.old held.new access.new sink.new result }
    {
        let number = self.evaluate_number(operand, depth, held, access, sink)?;
        Ok(Value::Number(unary_value(op, number)))
    }

    // The numbers of two operands: both are evaluated, and then both are used.
    #[inline(always)]
    #[cycle(eval)]
    #[tactic(auto, unfolding(sequence_rules::specs::Values::operands), using(crate::proofs::Exits::goes_on))]
    pub(crate) fn evaluate_operands<A: Access, K: Sink>(
        &self,
        left: &Expr,
        right: &Expr,
        depth: u32,
        held: &mut Held,
        access: &mut A,
        sink: &mut K,
    ) -> Result<(u64, u64), End>
        requires ready { IsReadyToCall held.old.units (A.reported access.old) }
        ensures { RunsWriting (late_operands_of self.now depth (tree left.now) (tree right.now))
            A.cost A.begun A.reported A.identity K.written K.faults held.old access.old sink.old held.new access.new sink.new result }
    {
        let left = self.evaluate_operand(left, depth, held, access, sink)?;
        let right = self.evaluate_operand(right, depth, held, access, sink)?;
        use_both(left, right, access)
    }

    // An operator of two operands that are both evaluated.
    #[cycle(eval)]
    #[tactic(auto, unfolding(sequence_rules::specs::Values::strict_binary, sequence_rules::specs::Values::result_of), using(crate::proofs::Exits::goes_on))]
    fn evaluate_strict<A: Access, K: Sink>(
        &self,
        op: BinaryOp,
        left: &Expr,
        right: &Expr,
        depth: u32,
        held: &mut Held,
        access: &mut A,
        sink: &mut K,
    ) -> Result<Value, End>
        requires ready { IsReadyToCall held.old.units (A.reported access.old) }
        ensures { RunsWriting (late_strict_of self.now depth op (tree left.now) (tree right.now))
            A.cost A.begun A.reported A.identity K.written K.faults held.old access.old sink.old held.new access.new sink.new result }
    {
        let (left, right) = self.evaluate_operands(left, right, depth, held, access, sink)?;
        match binary_value(op, left, right) {
            Some(number) => Ok(Value::Number(number)),
            None => Err(End::Halted(HaltCause::DivideByZero)),
        }
    }

    // 1 where a value that is used is not 0, and else 0.
    #[cycle(eval)]
    #[tactic(auto, unfolding(sequence_rules::specs::Values::truth_of), using(crate::proofs::Exits::goes_on))]
    fn evaluate_truth<A: Access, K: Sink>(
        &self,
        expr: &Expr,
        depth: u32,
        held: &mut Held,
        access: &mut A,
        sink: &mut K,
    ) -> Result<Value, End>
        requires ready { IsReadyToCall held.old.units (A.reported access.old) }
        ensures { RunsWriting (late_truth_of self.now depth (tree expr.now))
            A.cost A.begun A.reported A.identity K.written K.faults held.old access.old sink.old held.new access.new sink.new result }
    {
        let number = self.evaluate_number(expr, depth, held, access, sink)?;
        Ok(Value::Number(truth(number != 0)))
    }

    // The right side counts only where the left one is not 0.
    #[inline(never)]
    #[cycle(eval)]
    #[tactic(auto, unfolding(sequence_rules::specs::Values::conjunction), using(crate::proofs::Exits::goes_on))]
    fn evaluate_and<A: Access, K: Sink>(
        &self,
        left: &Expr,
        right: &Expr,
        depth: u32,
        held: &mut Held,
        access: &mut A,
        sink: &mut K,
    ) -> Result<Value, End>
        requires ready { IsReadyToCall held.old.units (A.reported access.old) }
        ensures { RunsWriting (late_and_of self.now depth (tree left.now) (tree right.now))
            A.cost A.begun A.reported A.identity K.written K.faults held.old access.old sink.old held.new access.new sink.new result }
    {
        let number = self.evaluate_number(left, depth, held, access, sink)?;
        if number == 0 {
            return Ok(Value::Number(0));
        }
        self.evaluate_truth(right, depth, held, access, sink)
    }

    // The right side counts only where the left one is 0.
    #[inline(never)]
    #[cycle(eval)]
    #[tactic(auto, unfolding(sequence_rules::specs::Values::disjunction), using(crate::proofs::Exits::goes_on))]
    fn evaluate_or<A: Access, K: Sink>(
        &self,
        left: &Expr,
        right: &Expr,
        depth: u32,
        held: &mut Held,
        access: &mut A,
        sink: &mut K,
    ) -> Result<Value, End>
        requires ready { IsReadyToCall held.old.units (A.reported access.old) }
        ensures { RunsWriting (late_or_of self.now depth (tree left.now) (tree right.now))
            A.cost A.begun A.reported A.identity K.written K.faults held.old access.old sink.old held.new access.new sink.new result }
    {
        let number = self.evaluate_number(left, depth, held, access, sink)?;
        if number != 0 {
            return Ok(Value::Number(1));
        }
        self.evaluate_truth(right, depth, held, access, sink)
    }

    // An operator between its operands.
    #[cycle(eval)]
    #[tactic(auto, unfolding(sequence_rules::specs::Values::of_binary), using(crate::proofs::Exits::goes_on))]
    pub(crate) fn evaluate_binary<A: Access, K: Sink>(
        &self,
        op: BinaryOp,
        left: &Expr,
        right: &Expr,
        depth: u32,
        held: &mut Held,
        access: &mut A,
        sink: &mut K,
    ) -> Result<Value, End>
        requires ready { IsReadyToCall held.old.units (A.reported access.old) }
        ensures { RunsWriting (late_binary_of self.now depth op (tree left.now) (tree right.now))
            A.cost A.begun A.reported A.identity K.written K.faults held.old access.old sink.old held.new access.new sink.new result }
    {
        match op {
            BinaryOp::And => self.evaluate_and(left, right, depth, held, access, sink),
            BinaryOp::Or => self.evaluate_or(left, right, depth, held, access, sink),
            _ => self.evaluate_strict(op, left, right, depth, held, access, sink),
        }
    }
}

// 1 where it is so, and 0 where it is not.
fn truth(test: bool) -> u64
    ensures { result ≡ truth test }
{
    if test { 1 } else { 0 }
}
