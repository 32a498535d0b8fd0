//! Calls of functions and of sequences.
ghost use Rattle.std.specs.Prelude.{◌≡◌, [], Option, None, unwrap_or};
ghost use Rattle.dap_base.specs.declared.text.Place.{Place};
ghost use Rattle.expr_grammar.specs.Tree.{arg_tree, arg_trees, tree, one_number, two_numbers};
ghost use Rattle.function_table.specs.declared.function.Function.{Function};
ghost use Rattle.seq_check.specs.Answers.{checked_trees};
ghost use Rattle.sequence_trees.specs.Trees.{NoSteps, steps_named, steps_tree};
ghost use Rattle.function_calls.specs.Ends.{answer_by};
ghost use Rattle.function_calls.specs.Frame.{IsReadyToCall, RunsWriting};
ghost use Rattle.control_flow.specs.Parts.{late_argument_of, late_arguments_of, late_call_of, late_function_of, late_named_of, late_sequence_of, late_value_after};

use crate::arguments::{both_numbers, only_number};
use crate::runner::Runner;
use access_calls::Access;
use dap_base::Sink;
use expr_grammar::{Arg, CalledName, Expr};
use function_calls::{End, Held, make_call, use_values};
use function_table::Function;
use sequence_rules::text_of;
use sequence_trees::CheckedStep;
use target_calls::Value;

impl Runner<'_> {
    // An argument is evaluated; a text is none.
    #[cycle(eval)]
    #[tactic(auto, unfolding(sequence_rules::specs::Values::argument), using(crate::proofs::Exits::goes_on))]
    fn evaluate_argument<A: Access, K: Sink>(
        &self,
        arg: &Arg,
        values: &mut Vec<Value>,
        depth: u32,
        held: &mut Held,
        access: &mut A,
        sink: &mut K,
    ) -> Result<(), End>
        requires ready { IsReadyToCall held.old.units (A.reported access.old) }
        ensures { RunsWriting (late_argument_of self.now depth (arg_tree arg.now) values.old.items)
            A.cost A.begun A.reported A.identity K.written K.faults held.old access.old sink.old held.new access.new sink.new (answer_by (λ x. values.new.items) result) }
    {
        match arg {
            Arg::Number(_, expr) => self.push_value(expr, values, depth, held, access, sink),
            Arg::Text(_) => Ok(()),
        }
    }

    // A value after others.
    #[cycle(eval)]
    #[tactic(auto, unfolding(sequence_rules::specs::Values::appended_values), using(crate::proofs::Exits::goes_on))]
    fn push_value<A: Access, K: Sink>(
        &self,
        expr: &Expr,
        values: &mut Vec<Value>,
        depth: u32,
        held: &mut Held,
        access: &mut A,
        sink: &mut K,
    ) -> Result<(), End>
        requires ready { IsReadyToCall held.old.units (A.reported access.old) }
        ensures { RunsWriting (late_value_after self.now depth values.old.items (tree expr.now))
            A.cost A.begun A.reported A.identity K.written K.faults held.old access.old sink.old held.new access.new sink.new (answer_by (λ x. values.new.items) result) }
    {
        let value = self.evaluate(expr, depth, held, access, sink)?;
        match values.push(value) {
            Ok(()) => Ok(()),
            Err(_) => Err(End::OutOfMemory),
        }
    }

    // The arguments of a call, in order.
    #[cycle(eval)]
    #[tactic(auto, unfolding(sequence_rules::specs::Values::arguments), using(crate::proofs::Exits::goes_on))]
    fn evaluate_arguments<A: Access, K: Sink>(
        &self,
        args: &[Arg],
        values: &mut Vec<Value>,
        depth: u32,
        held: &mut Held,
        access: &mut A,
        sink: &mut K,
    ) -> Result<(), End>
        requires ready { IsReadyToCall held.old.units (A.reported access.old) }
        ensures { RunsWriting (late_arguments_of self.now depth (arg_trees args.now) values.old.items)
            A.cost A.begun A.reported A.identity K.written K.faults held.old access.old sink.old held.new access.new sink.new (answer_by (λ x. values.new.items) result) }
    {
        for arg in args {
            self.evaluate_argument(arg, values, depth, held, access, sink)?;
        }
        Ok(())
    }

    // A call with any arguments: they are evaluated, and then all are used, and then the function is called.
    #[cycle(eval)]
    #[tactic(auto, unfolding(sequence_rules::specs::Values::call_of, sequence_rules::specs::Values::numbers_of, sequence_rules::specs::Calls::guarded_rest), using(crate::proofs::Exits::goes_on))]
    fn call_listed<A: Access, K: Sink>(
        &self,
        called: &CalledName,
        args: &[Arg],
        depth: u32,
        held: &mut Held,
        access: &mut A,
        sink: &mut K,
    ) -> Result<Value, End>
        requires ready { IsReadyToCall held.old.units (A.reported access.old) }
        ensures { RunsWriting (late_call_of self.now depth called.now.name (arg_trees args.now))
            A.cost A.begun A.reported A.identity K.written K.faults held.old access.old sink.old held.new access.new sink.new result }
    {
        let mut values = Vec::new(self.alloc);
        self.evaluate_arguments(args, &mut values, depth, held, access, sink)?;
        let numbers = use_values(self.alloc, values.as_slice(), access)?;
        self.call_function(
            called.function,
            text_of(args),
            numbers.as_slice(),
            depth,
            held,
            access,
            sink,
        )
    }

    // A call whose argument is one number.
    #[cycle(eval)]
    #[tactic(auto, using(crate::proofs::Exits::goes_on))]
    fn call_one<A: Access, K: Sink>(
        &self,
        called: &CalledName,
        only: &Expr,
        depth: u32,
        held: &mut Held,
        access: &mut A,
        sink: &mut K,
    ) -> Result<Value, End>
        requires ready { IsReadyToCall held.old.units (A.reported access.old) }
        ensures { (at : Place) → RunsWriting (late_call_of self.now depth called.now.name (one_number at (tree only.now)))
            A.cost A.begun A.reported A.identity K.written K.faults held.old access.old sink.old held.new access.new sink.new result }
    {
        let number = self.evaluate_number(only, depth, held, access, sink)?;
        self.call_function(called.function, "", &[number], depth, held, access, sink)
    }

    // A call whose arguments are two numbers.
    #[cycle(eval)]
    #[tactic(auto, using(crate::proofs::Exits::goes_on))]
    fn call_two<A: Access, K: Sink>(
        &self,
        called: &CalledName,
        first: &Expr,
        second: &Expr,
        depth: u32,
        held: &mut Held,
        access: &mut A,
        sink: &mut K,
    ) -> Result<Value, End>
        requires ready { IsReadyToCall held.old.units (A.reported access.old) }
        ensures { (at later : Place) → RunsWriting (late_call_of self.now depth called.now.name (two_numbers at (tree first.now) later (tree second.now)))
            A.cost A.begun A.reported A.identity K.written K.faults held.old access.old sink.old held.new access.new sink.new result }
    {
        let (first, second) = self.evaluate_operands(first, second, depth, held, access, sink)?;
        self.call_function(
            called.function,
            "",
            &[first, second],
            depth,
            held,
            access,
            sink,
        )
    }

    // A call. Most have one number or two, for which no list is made.
    #[inline(never)]
    #[cycle(eval)]
    pub(crate) fn call<A: Access, K: Sink>(
        &self,
        called: &CalledName,
        args: &[Arg],
        depth: u32,
        held: &mut Held,
        access: &mut A,
        sink: &mut K,
    ) -> Result<Value, End>
        requires ready { IsReadyToCall held.old.units (A.reported access.old) }
        ensures { RunsWriting (late_call_of self.now depth called.now.name (arg_trees args.now))
            A.cost A.begun A.reported A.identity K.written K.faults held.old access.old sink.old held.new access.new sink.new result }
    {
        if let Some(only) = only_number(args) {
            return self.call_one(called, only, depth, held, access, sink);
        }
        if let Some((first, second)) = both_numbers(args) {
            return self.call_two(called, first, second, depth, held, access, sink);
        }
        self.call_listed(called, args, depth, held, access, sink)
    }

    // The function of a call.
    #[cycle(eval)]
    #[tactic(auto, unfolding(sequence_rules::specs::Values::call_result, sequence_rules::specs::Calls::missing), using(crate::proofs::Exits::goes_on))]
    fn call_function<A: Access, K: Sink>(
        &self,
        function: Option<Function>,
        text: &str,
        numbers: &[u64],
        depth: u32,
        held: &mut Held,
        access: &mut A,
        sink: &mut K,
    ) -> Result<Value, End>
        requires ready { IsReadyToCall held.old.units (A.reported access.old) }
        ensures { RunsWriting (late_function_of self.now depth function text.now numbers.now)
            A.cost A.begun A.reported A.identity K.written K.faults held.old access.old sink.old held.new access.new sink.new result }
    {
        match function {
            None => Ok(Value::Number(0)),
            Some(Function::Sequence) => self.call_sequence(text, depth, held, access, sink),
            Some(function) => make_call(function, text, numbers, self.alloc, held, access, sink),
        }
    }

    // A call of a sequence.
    #[cycle(eval)]
    #[tactic(auto, unfolding(sequence_rules::specs::Values::call_result), using(crate::proofs::Exits::goes_on))]
    fn call_sequence<A: Access, K: Sink>(
        &self,
        name: &str,
        depth: u32,
        held: &mut Held,
        access: &mut A,
        sink: &mut K,
    ) -> Result<Value, End>
        requires ready { IsReadyToCall held.old.units (A.reported access.old) }
        ensures { RunsWriting (late_function_of self.now depth (Some Function.Sequence) name.now [])
            A.cost A.begun A.reported A.identity K.written K.faults held.old access.old sink.old held.new access.new sink.new result }
    {
        self.run_named(name, depth, held, access, sink)?;
        Ok(Value::Number(0))
    }

    // The sequence of the name.
    #[cycle(eval)]
    #[tactic(auto, unfolding(sequence_rules::specs::Steps::sequence_at, sequence_rules::specs::Calls::missing), using(crate::proofs::Exits::goes_on))]
    pub(crate) fn run_named<A: Access, K: Sink>(
        &self,
        name: &str,
        depth: u32,
        held: &mut Held,
        access: &mut A,
        sink: &mut K,
    ) -> Result<(), End>
        requires ready { IsReadyToCall held.old.units (A.reported access.old) }
        ensures { RunsWriting (late_named_of self.now depth name.now)
            A.cost A.begun A.reported A.identity K.written K.faults held.old access.old sink.old held.new access.new sink.new result }
    {
        if depth == 0 {
            return Ok(());
        }
        self.run_sequence(self.steps_of(name), depth - 1, held, access, sink)
    }

    // The steps of the sequence of the name, none where the set does not have it.
    pub(crate) fn steps_of(&self, name: &str) -> &[CheckedStep]
        ensures { steps_tree result.now ≡ unwrap_or (steps_named name.now (checked_trees self.now.set.now).sequences) NoSteps }
    {
        match self.set.steps(name) {
            Some(steps) => steps.as_slice(),
            None => &[],
        }
    }

    // The steps of a called sequence. After them the caller has its variables again, and its `__dp`, `__ap` and `__errorcontrol`;
    // none of these is used.
    #[cycle(eval)]
    #[tactic(auto, unfolding(sequence_rules::specs::Steps::sequence_result), using(crate::proofs::Exits::goes_on))]
    fn run_sequence<A: Access, K: Sink>(
        &self,
        steps: &[CheckedStep],
        depth: u32,
        held: &mut Held,
        access: &mut A,
        sink: &mut K,
    ) -> Result<(), End>
        requires ready { IsReadyToCall held.old.units (A.reported access.old) }
        ensures { RunsWriting (late_sequence_of self.now depth (steps_tree steps.now))
            A.cost A.begun A.reported A.identity K.written K.faults held.old access.old sink.old held.new access.new sink.new result }
    {
        let dp = held.globals.dp();
        let ap = held.globals.ap();
        let control = held.globals.control();
        let locals = held.take_locals(self.alloc);
        self.run_steps(steps, depth, held, access, sink)?;
        held.give_back(dp, ap, control, locals);
        Ok(())
    }
}
