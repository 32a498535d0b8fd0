//! Calls of functions and of sequences.
ghost use Rattle.std.specs.Prelude.{◌≡◌, [], ◌<◌, Some, unwrap_or};
ghost use Rattle.function_table.specs.declared.function.Function.{Function};
ghost use Rattle.seq_check.specs.Answers.{checked_trees};
ghost use Rattle.sequence_trees.specs.Trees.{NoSteps, steps_tree, steps_named};
ghost use Rattle.logged_runs.specs.OfSteps.{sequence_in_walk, sequence_seen};
ghost use Rattle.logged_runs.specs.OfValues.{appended_in_walk, argument_in_walk, argument_seen, arguments_in_walk, arguments_seen, call_in_walk};
ghost use Rattle.logged_runs.specs.OfValues.{call_seen, called_seen, function_in_walk, function_seen, named_seen, value_seen};
ghost use Rattle.logged_runs.specs.Walk.{CollectsAs, SeesWalk, WalksAs, calls_in_walk};

use crate::runner::LoggedRunner;
use crate::walked::Walked;
use expr_grammar::{Arg, CalledName, Expr};
use function_table::Function;
use logged_calls::{LoggedEnd, Stopped};
use sequence_rules::text_of;
use sequence_trees::CheckedStep;
use target_machine::Target;

impl<'a> LoggedRunner<'a> {
    // An argument is evaluated; a text is none.
    #[cycle(walk)]
    #[tactic(auto, unfolding(sequence_rules::specs::Values::argument, run_events::specs::OfValues::argument_events), using(crate::proofs::NoteLemmas::notes_none))]
    fn evaluate_argument(
        &self,
        arg: &'a Arg,
        numbers: &mut Vec<u64>,
        depth: u32,
        walked: &mut Walked<'a>,
        target: &mut Target,
    ) -> Result<(), Stopped>
        ensures gives { CollectsAs walked.old target.old walked.new target.new numbers.new.items result (argument_in_walk self.now depth arg.now numbers.old.items) }
        ensures noted { SeesWalk self.now.turns walked.old target.old walked.new result (argument_seen self.now depth arg.now) }
    {
        match arg {
            Arg::Number(_, expr) => self.push_value(expr, numbers, depth, walked, target),
            Arg::Text(_) => Ok(()),
        }
    }

    // A value after others.
    #[cycle(walk)]
    #[tactic(auto, unfolding(sequence_rules::specs::Values::appended_values), using(crate::proofs::Ends::ends_appended))]
    fn push_value(
        &self,
        expr: &'a Expr,
        numbers: &mut Vec<u64>,
        depth: u32,
        walked: &mut Walked<'a>,
        target: &mut Target,
    ) -> Result<(), Stopped>
        ensures gives { CollectsAs walked.old target.old walked.new target.new numbers.new.items result (appended_in_walk self.now depth numbers.old.items expr.now) }
        ensures noted { SeesWalk self.now.turns walked.old target.old walked.new result (value_seen self.now depth expr.now) }
    {
        let number = self.evaluate(expr, depth, walked, target)?;
        let Ok(()) = numbers.push(number) else {
            walked.held.end = LoggedEnd::OutOfMemory;
            return Err(Stopped);
        };
        Ok(())
    }

    // The arguments of a call, in order.
    #[cycle(walk)]
    #[tactic(auto, unfolding(sequence_rules::specs::Values::arguments, run_events::specs::OfValues::arguments_events), using(crate::proofs::LoopEnds::looping))]
    fn evaluate_arguments(
        &self,
        args: &'a [Arg],
        numbers: &mut Vec<u64>,
        depth: u32,
        walked: &mut Walked<'a>,
        target: &mut Target,
    ) -> Result<(), Stopped>
        ensures gives { CollectsAs walked.old target.old walked.new target.new numbers.new.items result (arguments_in_walk self.now depth args.now numbers.old.items) }
        ensures noted { SeesWalk self.now.turns walked.old target.old walked.new result (arguments_seen self.now depth args.now numbers.old.items) }
    {
        for arg in args {
            self.evaluate_argument(arg, numbers, depth, walked, target)?;
        }
        Ok(())
    }

    // A call: its arguments, and then the function.
    #[cycle(walk)]
    #[tactic(auto, unfolding(crate::proofs::Opened::calls), using(crate::proofs::Ends::ends_call, sequence_rules::proofs::NowLemmas::numbers_as))]
    pub(crate) fn call(
        &self,
        called: &'a CalledName,
        args: &'a [Arg],
        depth: u32,
        walked: &mut Walked<'a>,
        target: &mut Target,
    ) -> Result<u64, Stopped>
        ensures gives { WalksAs walked.old target.old walked.new target.new result (call_in_walk self.now depth called.now.name args.now) }
        ensures noted { SeesWalk self.now.turns walked.old target.old walked.new result (call_seen self.now depth called.now.name args.now) }
    {
        let mut numbers = Vec::new(self.alloc);
        self.evaluate_arguments(args, &mut numbers, depth, walked, target)?;
        self.call_function(
            called.function,
            text_of(args),
            numbers.as_slice(),
            depth,
            walked,
            target,
        )
    }

    // The function of a call.
    #[cycle(walk)]
    #[tactic(auto, unfolding(crate::proofs::Opened::callees))]
    fn call_function(
        &self,
        function: Option<Function>,
        text: &'a str,
        numbers: &[u64],
        depth: u32,
        walked: &mut Walked<'a>,
        target: &mut Target,
    ) -> Result<u64, Stopped>
        ensures gives { WalksAs walked.old target.old walked.new target.new result (function_in_walk self.now depth function text.now numbers.now) }
        ensures noted { SeesWalk self.now.turns walked.old target.old walked.new result (function_seen self.now depth function text.now numbers.now) }
    {
        match function {
            None => Ok(0),
            Some(function) => self.call_known(function, text, numbers, depth, walked, target),
        }
    }

    // A call of a function of the table.
    #[cycle(walk)]
    #[tactic(auto, unfolding(crate::proofs::Opened::callees))]
    fn call_known(
        &self,
        function: Function,
        text: &'a str,
        numbers: &[u64],
        depth: u32,
        walked: &mut Walked<'a>,
        target: &mut Target,
    ) -> Result<u64, Stopped>
        ensures gives { WalksAs walked.old target.old walked.new target.new result (function_in_walk self.now depth (Some function) text.now numbers.now) }
        ensures noted { SeesWalk self.now.turns walked.old target.old walked.new result (function_seen self.now depth (Some function) text.now numbers.now) }
    {
        match function {
            Function::Sequence => self.call_sequence(text, depth, walked, target),
            _ => walked.call_function(self.alloc, function, text, numbers, target),
        }
    }

    // A call of a sequence, from its call to its return.
    #[cycle(walk)]
    #[tactic(auto, unfolding(crate::proofs::Opened::called_sequences), using(crate::proofs::Ends::ends_sequence))]
    fn call_sequence(
        &self,
        name: &'a str,
        depth: u32,
        walked: &mut Walked<'a>,
        target: &mut Target,
    ) -> Result<u64, Stopped>
        ensures gives { WalksAs walked.old target.old walked.new target.new result (function_in_walk self.now depth (Some Function.Sequence) name.now []) }
        ensures noted { SeesWalk self.now.turns walked.old target.old walked.new result (called_seen self.now depth name.now) }
    {
        walked.call(name)?;
        self.run_named(name, depth, walked, target)?;
        walked.return_back()?;
        Ok(0)
    }

    // The sequence of the name.
    #[cycle(walk)]
    #[tactic(auto, unfolding(crate::proofs::Opened::sequences), using(crate::proofs::LoopEnds::sequence_on))]
    pub(crate) fn run_named(
        &self,
        name: &'a str,
        depth: u32,
        walked: &mut Walked<'a>,
        target: &mut Target,
    ) -> Result<(), Stopped>
        ensures gives { WalksAs walked.old target.old walked.new target.new result (calls_in_walk self.now depth name.now) }
        ensures noted { SeesWalk self.now.turns walked.old target.old walked.new result (named_seen self.now depth name.now) }
    {
        if depth == 0 {
            return Ok(());
        }
        self.run_sequence(name, self.steps_of(name), depth - 1, walked, target)
    }

    // The steps of the sequence of the name, none where the set does not have it.
    pub(crate) fn steps_of(&self, name: &str) -> &'a [CheckedStep]
        ensures { steps_tree result.now ≡ unwrap_or (steps_named name.now (checked_trees self.now.set.now).sequences) NoSteps }
    {
        match self.set.steps(name) {
            Some(steps) => steps.as_slice(),
            None => &[],
        }
    }

    // The steps of a called sequence. After them the caller has its variables again, and its `__dp`, `__ap` and `__errorcontrol`.
    #[cycle(walk)]
    #[tactic(auto, unfolding(sequence_rules::specs::Steps::sequence_result), using(crate::proofs::LoopEnds::entered_fail))]
    fn run_sequence(
        &self,
        name: &'a str,
        steps: &'a [CheckedStep],
        depth: u32,
        walked: &mut Walked<'a>,
        target: &mut Target,
    ) -> Result<(), Stopped>
        ensures gives { WalksAs walked.old target.old walked.new target.new result (sequence_in_walk self.now depth steps.now) }
        ensures noted { SeesWalk self.now.turns walked.old target.old walked.new result (sequence_seen self.now depth name.now steps.now) }
    {
        let dp = walked.get_global("__dp");
        let ap = walked.get_global("__ap");
        let control = walked.get_global("__errorcontrol");
        let locals = walked.take_locals(self.alloc);
        self.run_steps(name, &[], steps, depth, walked, target)?;
        walked.give_back(dp, ap, control, locals);
        Ok(())
    }
}
