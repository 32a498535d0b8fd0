//! The values of expressions.
ghost use Rattle.expr_grammar.specs.Tree.{tree};
ghost use Rattle.function_calls.specs.Frame.{IsReadyToCall, RunsWriting};
ghost use Rattle.control_flow.specs.Parts.{late_assignment_of, late_choice_of, late_number_of, late_value_of};

use crate::runner::Runner;
use access_calls::Access;
use dap_base::Sink;
use expr_grammar::{Expr, Name};
use function_calls::{End, Held, use_value};
use target_calls::Value;

impl Runner<'_> {
    // The value of an expression: a name or an access is not used.
    #[cycle(eval)]
    #[tactic(auto, unfolding(sequence_rules::specs::Values::value, sequence_rules::specs::Values::named_value, sequence_rules::specs::Calls::value_or_missing, sequence_rules::specs::Calls::missing), using(crate::proofs::Exits::goes_on))]
    pub(crate) fn evaluate<A: Access, K: Sink>(
        &self,
        expr: &Expr,
        depth: u32,
        held: &mut Held,
        access: &mut A,
        sink: &mut K,
    ) -> Result<Value, End>
        requires ready { IsReadyToCall held.old.units (A.reported access.old) }
        ensures { RunsWriting (late_value_of self.now depth (tree expr.now))
            A.cost A.begun A.reported A.identity K.written K.faults held.old access.old sink.old held.new access.new sink.new result }
    {
        match expr {
            Expr::Number(number) => Ok(Value::Number(*number)),
            Expr::Name(name) => Ok(held.get_visible(name.text.as_str())),
            Expr::Group(inner) => self.evaluate(inner, depth, held, access, sink),
            Expr::Unary(op, operand) => self.evaluate_unary(
                *op, operand, depth, held, access, sink,
            ),
            Expr::Binary(op, left, right) => self.evaluate_binary(
                *op, left, right, depth, held, access, sink,
            ),
            Expr::Cond(test, first, second) => self.evaluate_choice(
                test, first, second, depth, held, access, sink,
            ),
            Expr::Assign(name, right) => self.assign(name, right, depth, held, access, sink),
            Expr::Call(called, args) => self.call(
                called,
                args.as_slice(),
                depth,
                held,
                access,
                sink,
            ),
        }
    }

    // The value of an operand or an argument, which is not used. Most are numbers or names, which are taken here, without a call for each.
    #[inline(always)]
    #[cycle(eval)]
    #[tactic(auto, unfolding(sequence_rules::specs::Values::value, sequence_rules::specs::Values::named_value, sequence_rules::specs::Calls::value_or_missing, sequence_rules::specs::Calls::missing), using(crate::proofs::Exits::goes_on))]
    pub(crate) fn evaluate_operand<A: Access, K: Sink>(
        &self,
        expr: &Expr,
        depth: u32,
        held: &mut Held,
        access: &mut A,
        sink: &mut K,
    ) -> Result<Value, End>
        requires ready { IsReadyToCall held.old.units (A.reported access.old) }
        ensures { RunsWriting (late_value_of self.now depth (tree expr.now))
            A.cost A.begun A.reported A.identity K.written K.faults held.old access.old sink.old held.new access.new sink.new result }
    {
        match expr {
            Expr::Number(number) => Ok(Value::Number(*number)),
            Expr::Name(name) => Ok(held.get_visible(name.text.as_str())),
            _ => self.evaluate(expr, depth, held, access, sink),
        }
    }

    // The number of an expression, whose value is used.
    #[cycle(eval)]
    #[tactic(auto, unfolding(sequence_rules::specs::Values::used_now), using(crate::proofs::Exits::goes_on))]
    pub(crate) fn evaluate_number<A: Access, K: Sink>(
        &self,
        expr: &Expr,
        depth: u32,
        held: &mut Held,
        access: &mut A,
        sink: &mut K,
    ) -> Result<u64, End>
        requires ready { IsReadyToCall held.old.units (A.reported access.old) }
        ensures { RunsWriting (late_number_of self.now depth (tree expr.now))
            A.cost A.begun A.reported A.identity K.written K.faults held.old access.old sink.old held.new access.new sink.new result }
    {
        let value = self.evaluate_operand(expr, depth, held, access, sink)?;
        use_value(value, access)
    }

    // One of two, by a condition that is used. The value of the chosen one is not used.
    #[inline(never)]
    #[cycle(eval)]
    #[tactic(auto, unfolding(sequence_rules::specs::Values::choice), using(crate::proofs::Exits::goes_on))]
    fn evaluate_choice<A: Access, K: Sink>(
        &self,
        test: &Expr,
        first: &Expr,
        second: &Expr,
        depth: u32,
        held: &mut Held,
        access: &mut A,
        sink: &mut K,
    ) -> Result<Value, End>
        requires ready { IsReadyToCall held.old.units (A.reported access.old) }
        ensures { RunsWriting (late_choice_of self.now depth (tree test.now) (tree first.now) (tree second.now))
            A.cost A.begun A.reported A.identity K.written K.faults held.old access.old sink.old held.new access.new sink.new result }
    {
        let number = self.evaluate_number(test, depth, held, access, sink)?;
        if number == 0 {
            self.evaluate(second, depth, held, access, sink)
        } else {
            self.evaluate(first, depth, held, access, sink)
        }
    }

    // An assignment. The value is not used.
    #[inline(never)]
    #[cycle(eval)]
    #[tactic(auto, unfolding(sequence_rules::specs::Values::assigned_value), using(crate::proofs::Exits::goes_on))]
    fn assign<A: Access, K: Sink>(
        &self,
        name: &Name,
        right: &Expr,
        depth: u32,
        held: &mut Held,
        access: &mut A,
        sink: &mut K,
    ) -> Result<Value, End>
        requires ready { IsReadyToCall held.old.units (A.reported access.old) }
        ensures { RunsWriting (late_assignment_of self.now depth name.now (tree right.now))
            A.cost A.begun A.reported A.identity K.written K.faults held.old access.old sink.old held.new access.new sink.new result }
    {
        let value = self.evaluate(right, depth, held, access, sink)?;
        held.store(name.text.as_str(), value);
        Ok(value)
    }
}
