//! Values, where they are used.
ghost use Rattle.std.specs.Prelude.{◌≡◌, ℕ, Option, None, OnOk, IfErr};
ghost use Rattle.probe_core.specs.Bench.{BenchState};
ghost use Rattle.target_calls.specs.NeedPoints.{asks_at_need};
ghost use Rattle.target_calls.specs.World.{stop};
ghost use Rattle.access_calls.specs.Left.{IsLeft};
ghost use Rattle.access_calls.specs.Reported.{world_from};
ghost use Rattle.access_calls.specs.Keeps.{KeepsAccess};
ghost use Rattle.sequence_rules.specs.Calls as c;
ghost use Rattle.sequence_rules.specs.Late.{late};
ghost use Rattle.sequence_rules.specs.Values as v;
ghost use Rattle.function_calls.specs.Ends.{IsStopAt, answer_by};
ghost use Rattle.function_calls.specs.Frame.{EndsUse, UsesValues};

use crate::end::End;
use access_calls::Access;
use std::alloc::Global;
use target_calls::Value;

/// The number of a value, where it is used. Sends what was asked where its result has not come.
#[tactic(auto, unfolding(sequence_rules::specs::Calls::use_now, sequence_rules::specs::Late::late), using(crate::proofs::Leaves::leaves))]
pub fn use_value<A: Access>(value: Value, access: &mut A) -> Result<u64, End>
    requires open { (A.reported access.old).end ≡ None }
    ensures { UsesValues (λ m. c.use_now m value) A.cost A.begun A.reported A.identity access.old access.new result }
{
    match value {
        Value::Number(number) => Ok(number),
        Value::Pending(slot) => match access.value(slot) {
            Ok(number) => Ok(number),
            Err(stop) => Err(End::from(stop)),
        },
    }
}

/// The numbers of two values, used one after the other.
#[tactic(auto, unfolding(sequence_rules::specs::Values::both), using(crate::proofs::Leaves::exits, access_calls::proofs::KeepLemmas::goes_trans))]
pub fn use_both<A: Access>(left: Value, right: Value, access: &mut A) -> Result<(u64, u64), End>
    requires open { (A.reported access.old).end ≡ None }
    ensures { UsesValues (λ m. v.both m left right) A.cost A.begun A.reported A.identity access.old access.new result }
{
    let left = use_value(left, access)?;
    let right = use_value(right, access)?;
    Ok((left, right))
}

/// The numbers of values, used one after the other. `OutOfMemory` where memory is refused.
#[tactic(auto, using(crate::proofs::UseLemmas::using_all))]
pub fn use_values<A: Access>(
    alloc: Global,
    values: &[Value],
    access: &mut A,
) -> Result<Vec<u64>, End>
    requires open { (A.reported access.old).end ≡ None }
    ensures { UsesValues (λ m. v.all_used m values.now) A.cost A.begun A.reported A.identity access.old access.new (answer_by (λ numbers. numbers.items) result) }
{
    let mut numbers = Vec::new(alloc);
    for value in values {
        let number = use_value(*value, access)?;
        match numbers.push(number) {
            Ok(()) => {}
            Err(_) => return Err(End::OutOfMemory),
        }
    }
    Ok(numbers)
}

// Makes all that was asked: it is confirmed.
#[tactic(auto, using(crate::proofs::Leaves::leaves))]
pub(crate) fn confirm<A: Access>(access: &mut A) -> Result<(), End>
    requires open { (A.reported access.old).end ≡ None }
    ensures asks { OnOk result ((A.reported access.new).asks ≡ asks_at_need (A.reported access.old).asks) }
    ensures whole { (m : BenchState) (answered : Option ℕ) → A.begun access.old m → IsLeft (A.reported access.new) answered
        → OnOk result (stop (world_from m answered) (A.reported access.old).asks.calls ≡ None) }
    ensures stops { (m : BenchState) (answered : Option ℕ) → A.begun access.old m → IsLeft (A.reported access.new) answered
        → IfErr result (IsStopAt (world_from m answered) (A.reported access.old).asks.calls (A.reported access.new)) }
    ensures keeps { KeepsAccess A.begun A.reported A.identity access.old access.new }
    ensures ends { EndsUse result (A.reported access.old) (A.reported access.new) }
{
    match access.flush() {
        Ok(()) => Ok(()),
        Err(stop) => Err(End::from(stop)),
    }
}
