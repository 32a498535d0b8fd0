//! Calls of functions and of sequences.
ghost use Rattle.dap_base.specs.declared.text.Place.{Place};
ghost use Rattle.seq_check.specs.Answers.{checked_trees};
ghost use Rattle.sequence_trees.specs.Trees.{NoSteps, steps_named, steps_tree};
ghost use Rattle.function_table.specs.declared.function.Function.{Function};
ghost use Rattle.std.specs.Prelude.{◌≡◌, [], unwrap_or};
ghost use Rattle.sequence_meaning.specs.Frame.{RunsDirect};
ghost use Rattle.sequence_meaning.specs.Held.{calls_of, with_answer};
ghost use Rattle.sequence_meaning.specs.Parts.{argument_meaning, arguments_meaning, call_meaning, called_sequence_meaning, function_meaning, value_after};
ghost use Rattle.expr_grammar.specs.Tree.{arg_tree, arg_trees, tree, one_number, two_numbers};

use crate::end::{DirectEnd, Stopped};
use crate::functions::make_call;
use crate::held::DirectHeld;
use crate::runner::DirectRunner;
use dap_base::Sink;
use expr_grammar::{Arg, CalledName, Expr};
use function_table::Function;
use sequence_rules::text_of;
use sequence_trees::CheckedStep;
use target_machine::Target;

impl DirectRunner<'_> {
    // An argument is evaluated; a text is none.
    #[cycle(eval)]
    #[tactic(auto, unfolding(sequence_rules::specs::Values::argument))]
    fn evaluate_argument<K: Sink>(
        &self,
        arg: &Arg,
        numbers: &mut Vec<u64>,
        depth: u32,
        held: &mut DirectHeld,
        target: &mut Target,
        sink: &mut K,
    ) -> Result<(), Stopped>
        ensures { RunsDirect (argument_meaning self.now depth (arg_tree arg.now) numbers.old.items)
            K.written K.faults held.old target.old sink.old held.new target.new sink.new (with_answer numbers.new.items result) }
    {
        match arg {
            Arg::Number(_, expr) => self.push_value(expr, numbers, depth, held, target, sink),
            Arg::Text(_) => Ok(()),
        }
    }

    // A value after others.
    #[cycle(eval)]
    #[tactic(auto, unfolding(sequence_rules::specs::Values::appended_values), using(crate::proofs::StopLemmas::value_ends))]
    fn push_value<K: Sink>(
        &self,
        expr: &Expr,
        numbers: &mut Vec<u64>,
        depth: u32,
        held: &mut DirectHeld,
        target: &mut Target,
        sink: &mut K,
    ) -> Result<(), Stopped>
        ensures { RunsDirect (value_after self.now depth numbers.old.items (tree expr.now))
            K.written K.faults held.old target.old sink.old held.new target.new sink.new (with_answer numbers.new.items result) }
    {
        let number = self.evaluate_operand(expr, depth, held, target, sink)?;
        match numbers.push(number) {
            Ok(()) => Ok(()),
            Err(_) => {
                held.end = DirectEnd::OutOfMemory;
                Err(Stopped)
            }
        }
    }

    // The arguments of a call, in order.
    #[cycle(eval)]
    #[tactic(auto, unfolding(sequence_rules::specs::Values::arguments), using(crate::proofs::Loops::loops))]
    fn evaluate_arguments<K: Sink>(
        &self,
        args: &[Arg],
        numbers: &mut Vec<u64>,
        depth: u32,
        held: &mut DirectHeld,
        target: &mut Target,
        sink: &mut K,
    ) -> Result<(), Stopped>
        ensures { RunsDirect (arguments_meaning self.now depth (arg_trees args.now) numbers.old.items)
            K.written K.faults held.old target.old sink.old held.new target.new sink.new (with_answer numbers.new.items result) }
    {
        for arg in args {
            self.evaluate_argument(arg, numbers, depth, held, target, sink)?;
        }
        Ok(())
    }

    // A call: its arguments, and then the function. The numbers among them go into an empty list.
    #[cycle(eval)]
    #[tactic(auto, unfolding(crate::proofs::Opened::calls), using(crate::proofs::StopLemmas::call_ends))]
    fn call_with<K: Sink>(
        &self,
        called: &CalledName,
        args: &[Arg],
        numbers: &mut Vec<u64>,
        depth: u32,
        held: &mut DirectHeld,
        target: &mut Target,
        sink: &mut K,
    ) -> Result<u64, Stopped>
        requires { numbers.old.items ≡ [] }
        ensures { RunsDirect (call_meaning self.now depth called.now.name (arg_trees args.now))
            K.written K.faults held.old target.old sink.old held.new target.new sink.new result }
    {
        self.evaluate_arguments(args, numbers, depth, held, target, sink)?;
        self.call_function(
            called.function,
            text_of(args),
            numbers.as_slice(),
            depth,
            held,
            target,
            sink,
        )
    }

    // A call with any arguments. The list for its numbers is the one of the call before, so that no memory is taken and given back for
    // each call.
    #[cycle(eval)]
    fn call_listed<K: Sink>(
        &self,
        called: &CalledName,
        args: &[Arg],
        depth: u32,
        held: &mut DirectHeld,
        target: &mut Target,
        sink: &mut K,
    ) -> Result<u64, Stopped>
        ensures { RunsDirect (call_meaning self.now depth called.now.name (arg_trees args.now))
            K.written K.faults held.old target.old sink.old held.new target.new sink.new result }
    {
        let mut numbers = held.take_numbers(self.alloc);
        let answer = self.call_with(called, args, &mut numbers, depth, held, target, sink);
        held.numbers = numbers;
        answer
    }

    // A call whose argument is one number.
    #[cycle(eval)]
    #[tactic(auto, using(crate::proofs::FewLemmas::one_ends))]
    fn call_one<K: Sink>(
        &self,
        called: &CalledName,
        only: &Expr,
        depth: u32,
        held: &mut DirectHeld,
        target: &mut Target,
        sink: &mut K,
    ) -> Result<u64, Stopped>
        ensures { (at : Place) → RunsDirect (call_meaning self.now depth called.now.name (one_number at (tree only.now)))
            K.written K.faults held.old target.old sink.old held.new target.new sink.new result }
    {
        let number = self.evaluate_operand(only, depth, held, target, sink)?;
        self.call_function(called.function, "", &[number], depth, held, target, sink)
    }

    // A call whose arguments are two numbers.
    #[cycle(eval)]
    #[tactic(auto, using(crate::proofs::FewLemmas::two_ends))]
    fn call_two<K: Sink>(
        &self,
        called: &CalledName,
        first: &Expr,
        second: &Expr,
        depth: u32,
        held: &mut DirectHeld,
        target: &mut Target,
        sink: &mut K,
    ) -> Result<u64, Stopped>
        ensures { (at later : Place) → RunsDirect
            (call_meaning self.now depth called.now.name (two_numbers at (tree first.now) later (tree second.now)))
            K.written K.faults held.old target.old sink.old held.new target.new sink.new result }
    {
        let first = self.evaluate_operand(first, depth, held, target, sink)?;
        let second = self.evaluate_operand(second, depth, held, target, sink)?;
        self.call_function(
            called.function,
            "",
            &[first, second],
            depth,
            held,
            target,
            sink,
        )
    }

    // A call. Most have one number or two, for which no list is made.
    #[cycle(eval)]
    pub(crate) fn call<K: Sink>(
        &self,
        called: &CalledName,
        args: &[Arg],
        depth: u32,
        held: &mut DirectHeld,
        target: &mut Target,
        sink: &mut K,
    ) -> Result<u64, Stopped>
        ensures { RunsDirect (call_meaning self.now depth called.now.name (arg_trees args.now))
            K.written K.faults held.old target.old sink.old held.new target.new sink.new result }
    {
        match args {
            [Arg::Number(_, only)] => self.call_one(called, only, depth, held, target, sink),
            [Arg::Number(_, first), Arg::Number(_, second)] => {
                self.call_two(called, first, second, depth, held, target, sink)
            }
            _ => self.call_listed(called, args, depth, held, target, sink),
        }
    }

    // The function of a call.
    #[cycle(eval)]
    #[tactic(auto, unfolding(crate::proofs::Opened::callees))]
    fn call_function<K: Sink>(
        &self,
        function: Option<Function>,
        text: &str,
        numbers: &[u64],
        depth: u32,
        held: &mut DirectHeld,
        target: &mut Target,
        sink: &mut K,
    ) -> Result<u64, Stopped>
        ensures { RunsDirect (function_meaning self.now depth function text.now numbers.now)
            K.written K.faults held.old target.old sink.old held.new target.new sink.new result }
    {
        match function {
            None => Ok(0),
            Some(Function::Sequence) => self.call_sequence(text, depth, held, target, sink),
            Some(function) => make_call(function, text, numbers, self.alloc, held, target, sink),
        }
    }

    // A call of a sequence.
    #[cycle(eval)]
    #[tactic(auto, unfolding(crate::proofs::Opened::callees), using(crate::proofs::StopLemmas::sequence_ends))]
    fn call_sequence<K: Sink>(
        &self,
        name: &str,
        depth: u32,
        held: &mut DirectHeld,
        target: &mut Target,
        sink: &mut K,
    ) -> Result<u64, Stopped>
        ensures { RunsDirect (function_meaning self.now depth (Some Function.Sequence) name.now [])
            K.written K.faults held.old target.old sink.old held.new target.new sink.new result }
    {
        self.run_named(name, depth, held, target, sink)?;
        Ok(0)
    }

    // The sequence of the name.
    #[cycle(eval)]
    #[tactic(auto, unfolding(crate::proofs::Opened::sequences))]
    pub(crate) fn run_named<K: Sink>(
        &self,
        name: &str,
        depth: u32,
        held: &mut DirectHeld,
        target: &mut Target,
        sink: &mut K,
    ) -> Result<(), Stopped>
        ensures { RunsDirect (calls_of self.now depth name.now)
            K.written K.faults held.old target.old sink.old held.new target.new sink.new result }
    {
        if depth == 0 {
            return Ok(());
        }
        self.run_sequence(self.steps_of(name), depth - 1, held, target, sink)
    }

    // The steps of the sequence of the name, none where the set does not have it.
    pub(crate) fn steps_of(&self, name: &str) -> &[CheckedStep]
        ensures { steps_tree result.now ≡ unwrap_or (steps_named name.now (checked_trees self.now.set.now).sequences) NoSteps }
    {
        match self.set.steps(name) {
            Some(steps) => steps.as_slice(),
            None => &[],
        }
    }

    // The steps of a called sequence. After them the caller has its variables again, and its `__dp`, `__ap` and `__errorcontrol`.
    #[cycle(eval)]
    fn run_sequence<K: Sink>(
        &self,
        steps: &[CheckedStep],
        depth: u32,
        held: &mut DirectHeld,
        target: &mut Target,
        sink: &mut K,
    ) -> Result<(), Stopped>
        ensures { RunsDirect (called_sequence_meaning self.now depth (steps_tree steps.now))
            K.written K.faults held.old target.old sink.old held.new target.new sink.new result }
    {
        let dp = held.globals.dp();
        let ap = held.globals.ap();
        let control = held.globals.control();
        let locals = held.take_locals(self.alloc);
        self.run_steps(steps, depth, held, target, sink)?;
        held.give_back(dp, ap, control, locals);
        Ok(())
    }
}
