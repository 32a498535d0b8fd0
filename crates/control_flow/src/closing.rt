//! How a run is closed.
ghost use Rattle.std.specs.Prelude.{◌≡◌, [], ℕ, List, Option, None, Some, length, OnOk, IfOk, IfErr};
ghost use Rattle.probe_core.specs.Bench.{BenchState};
ghost use Rattle.target_calls.specs.Values.{IsAsked, number_of};
ghost use Rattle.target_calls.specs.World.{stop};
ghost use Rattle.access_calls.specs.Answers.{StopsCalls};
ghost use Rattle.access_calls.specs.GoesOn.{IsSameButAsks};
ghost use Rattle.access_calls.specs.Left.{IsLeft, answered_by};
ghost use Rattle.access_calls.specs.Reported.{world_from};
ghost use Rattle.access_calls.specs.Keeps.{KeepsAccess};
ghost use Rattle.sequence_rules.specs.Direct.{Now};
ghost use Rattle.sequence_rules.specs.Late.{Late};
ghost use Rattle.sequence_rules.specs.Laws.{Pair};
ghost use Rattle.sequence_rules.specs.Machine.{Out};
ghost use Rattle.sequence_rules.specs.Runs.{outcome_of, variables_of};
ghost use Rattle.sequence_rules.specs.Shared.{bindings_of};
ghost use Rattle.function_calls.specs.Ends.{HasEnded};
ghost use Rattle.function_calls.specs.Held.{late_state_of};
ghost use Rattle.control_flow.specs.Answers.{EndBy, HasNeeds, IsPartOfOutcome, RunEndsAs, ran};
ghost use Rattle.control_flow.specs.Closing.{AreAsked, ComesToEnd, OutIs, RunHasNoWriteFault, numbers_in};
ghost use Rattle.access_calls.specs.Asking.{EndsByStop};

use access_calls::{Access, Ended, Ending, Stop};
use dap_base::NameText;
use function_calls::Held;
use sequence_rules::Globals;
use std::alloc::Global;
use target_calls::Value;
use target_machine::{Variable, Variables};

// The stop of an access that has ended: it answers it again, and sends nothing.
#[tactic(auto, using(crate::proofs::EndRules::ending))]
pub(crate) fn stop_of<A: Access>(access: &mut A) -> Stop
    requires ended { HasEnded (A.reported access.old).end }
    ensures stop { (A.reported access.old).end ≡ Some result }
    ensures by { EndsByStop result (A.reported access.new).end }
    ensures same { IsSameButAsks (A.reported access.old) (A.reported access.new) }
    ensures calls { (A.reported access.new).asks.calls ≡ (A.reported access.old).asks.calls }
    ensures keeps { KeepsAccess A.begun A.reported A.identity access.old access.new }
{
    match access.flush() {
        Ok(()) => unreachable!(),
        Err(stop) => stop,
    }
}

// The number of a value.
#[tactic(auto, using(crate::proofs::EndRules::ending))]
fn look_up<A: Access>(value: Value, access: &mut A) -> Result<u64, Stop>
    requires open { (A.reported access.old).end ≡ None }
    ensures value { (m : BenchState) (answered : Option ℕ) → A.begun access.old m → IsLeft (A.reported access.new) answered
        → IfOk result (λ n. n ≡ number_of (world_from m answered) (A.reported access.old).asks.calls value) }
    ensures calls { (A.reported access.new).asks.calls ≡ (A.reported access.old).asks.calls }
    ensures asks { IsAsked (A.reported access.old).asks.fence value → OnOk result ((A.reported access.new).asks ≡ (A.reported access.old).asks) }
    ensures stops { (m : BenchState) (answered : Option ℕ) → A.begun access.old m → IsLeft (A.reported access.new) answered
        → IfErr result (StopsCalls (world_from m answered) (A.reported access.old).asks.calls (A.reported access.new).lines) }
    ensures open { OnOk result ((A.reported access.new).end ≡ None) }
    ensures end { IfErr result (λ s. EndsByStop s (A.reported access.new).end) }
    ensures keeps { KeepsAccess A.begun A.reported A.identity access.old access.new }
{
    match value {
        Value::Number(number) => Ok(number),
        Value::Pending(slot) => access.value(slot),
    }
}

// The variables that all sequences share, with their numbers.
#[tactic(auto, using(crate::proofs::EndRules::ending))]
fn look_up_variables<A: Access>(
    alloc: Global,
    globals: &Globals<Value>,
    access: &mut A,
) -> Result<Variables, Stop>
    requires open { (A.reported access.old).end ≡ None }
    ensures values { (m : BenchState) (answered : Option ℕ) → A.begun access.old m → IsLeft (A.reported access.new) answered
        → IfOk result (λ v. variables_of v ≡ numbers_in (world_from m answered) (A.reported access.old).asks.calls (bindings_of globals.now)) }
    ensures calls { (A.reported access.new).asks.calls ≡ (A.reported access.old).asks.calls }
    ensures asks { AreAsked (A.reported access.old).asks.fence (bindings_of globals.now) → OnOk result ((A.reported access.new).asks ≡ (A.reported access.old).asks) }
    ensures stops { (m : BenchState) (answered : Option ℕ) → A.begun access.old m → IsLeft (A.reported access.new) answered
        → IfErr result (StopsCalls (world_from m answered) (A.reported access.old).asks.calls (A.reported access.new).lines) }
    ensures open { OnOk result ((A.reported access.new).end ≡ None) }
    ensures end { IfErr result (λ s. EndsByStop s (A.reported access.new).end) }
    ensures keeps { KeepsAccess A.begun A.reported A.identity access.old access.new }
{
    let mut variables = Variables::new(alloc);
    let mut index = 0;
    while index < globals.len() {
        let Some((name, value)) = globals.at(index) else {
            return Err(Stop::OutOfMemory);
        };
        let Ok(name) = NameText::new(alloc, name) else {
            return Err(Stop::OutOfMemory);
        };
        let value = look_up(value, access)?;
        match variables.push(Variable { name, value }) {
            Ok(()) => {}
            Err(_) => return Err(Stop::OutOfMemory),
        }
        index += 1;
    }
    Ok(variables)
}

// The answer of a run that was left.
pub(crate) fn ended_early(alloc: Global, ending: Ending, units: u32, skipped: u32) -> Ended
    ensures ending { result.ending ≡ ending }
    ensures units { result.units ≡ units }
    ensures skipped { result.skipped ≡ skipped }
    ensures none { variables_of result.variables ≡ [] }
{
    Ended {
        ending,
        units,
        skipped,
        variables: Variables::new(alloc),
    }
}

// The answer of a run that comes to its end: all calls are made and settled, and the variables looked up.
#[tactic(auto, using(crate::proofs::EndRules::ending))]
pub(crate) fn ended_whole<A: Access>(
    alloc: Global,
    ending: Ending,
    held: &Held,
    access: &mut A,
) -> Ended
    requires open { (A.reported access.old).end ≡ None }
    requires whole { ComesToEnd ending }
    requires counted { held.now.units ≡ length (A.reported access.old).asks.calls }
    ensures answer { (m : BenchState) (written : Option (List ℕ)) (out : Out Value Late (Unit {0})) (q : Out ℕ Now (Unit {0})) → A.begun access.old m
        → OutIs ending (late_state_of held.now (A.reported access.old).asks written) out → Pair (world_from m (answered_by (A.reported access.new))) out q
        → RunEndsAs result.ending (A.reported access.new).lines (outcome_of q) (ran result (A.reported access.new).asks written) × HasNeeds result.ending
        (A.reported access.new).asks out }
    ensures part { (m : BenchState) (answered : Option ℕ) (written : Option (List ℕ)) (out : Out Value Late (Unit {0})) (q : Out ℕ Now (Unit {0})) → A.begun access.old m
        → IsLeft (A.reported access.new) answered → OutIs ending (late_state_of held.now (A.reported access.old).asks written) out → Pair (world_from m answered) out q
        → (ComesToEnd result.ending → ⊥) → IsPartOfOutcome (outcome_of q) (ran result (A.reported access.new).asks written) }
    ensures goes { (m : BenchState) (answered : Option ℕ) → A.begun access.old m → IsLeft (A.reported access.new) answered → ComesToEnd result.ending
        → stop (world_from m answered) (A.reported access.new).asks.calls ≡ None }
    ensures counted { ComesToEnd result.ending → result.units ≡ length (A.reported access.new).asks.calls }
    ensures end { EndBy result.ending (A.reported access.new).end }
    ensures cause { RunHasNoWriteFault result.ending }
    ensures skipped { result.skipped ≡ (A.reported access.new).skipped }
    ensures keeps { KeepsAccess A.begun A.reported A.identity access.old access.new }
{
    match access.finish() {
        Ok(()) => {}
        Err(stop) => return ended_early(alloc, Ending::from(stop), held.units, access.skipped()),
    }
    match look_up_variables(alloc, held.globals.all(), access) {
        Ok(variables) => Ended {
            ending,
            units: held.units,
            skipped: access.skipped(),
            variables,
        },
        Err(stop) => ended_early(alloc, Ending::from(stop), held.units, access.skipped()),
    }
}
