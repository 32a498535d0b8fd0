//! The calls among the sequences of a set.
ghost use Rattle.std.specs.Prelude.{◌≡◌, ◌<◌, ℕ, IfOk, Some, map, option_map, length, slice_get, List};
ghost use Rattle.sequence_trees.specs.Trees.{steps_tree};
ghost use Rattle.sequence_trees.specs.SetView.{set_trees};
ghost use Rattle.call_graph.specs.Spots.{IsCallOf};
ghost use Rattle.seq_check.specs.SetFaults.{names_of};
ghost use Rattle.seq_check.specs.Calls.{sequence_calls, set_calls, call_graph};
ghost use Rattle.seq_check.specs.Valid.{IsCallAt};

use crate::sequences::{name_of, steps_of};
use crate::step_calls::{StepCall, push_steps};
use call_graph::{CallGraph, CallSpot};
use code_check::Names;
use dap_base::{ItemList, NameText, OutOfMemory};
use sequence_trees::{CheckedStep, ReadSet, Spot, copy_path};
use std::alloc::Global;

/// The calls of one sequence, in the order of the text.
pub type StepCalls = ItemList<StepCall>;

fn calls_of(
    alloc: Global,
    sequences: &Names,
    steps: &[CheckedStep],
) -> Result<StepCalls, OutOfMemory>
    ensures { IfOk result (λ calls. calls ≡ sequence_calls sequences.now (steps_tree steps.now)) }
{
    let mut calls = ItemList::new(alloc);
    push_steps(alloc, sequences, &[], steps, &mut calls)?;
    Ok(calls)
}

/// The calls of each sequence. `sequences` are the names of the set. `OutOfMemory` where memory is refused.
pub fn set_calls(
    alloc: Global,
    set: &ReadSet,
    sequences: &Names,
) -> Result<ItemList<StepCalls>, OutOfMemory>
    requires { sequences.now ≡ names_of (set_trees set.now) }
    ensures { IfOk result (λ calls. calls ≡ set_calls (set_trees set.now)) }
{
    let mut calls = ItemList::new(alloc);
    for index in 0..set.len() {
        let steps = steps_of(set, index);
        calls.push(calls_of(alloc, sequences, steps.as_slice())?)?;
    }
    Ok(calls)
}

fn callees_of(alloc: Global, calls: &[StepCall]) -> Result<ItemList<usize>, OutOfMemory>
    ensures { IfOk result (λ callees. callees ≡ map (λ c. c.callee) calls.now) }
{
    let mut callees = ItemList::new(alloc);
    for call in calls {
        callees.push(call.callee)?;
    }
    Ok(callees)
}

/// The sequences by their numbers, and which they call. `OutOfMemory` where memory is refused.
pub fn graph_of(alloc: Global, calls: &[StepCalls]) -> Result<CallGraph, OutOfMemory>
    ensures { IfOk result (λ graph. graph ≡ map (λ cs. map (λ c. c.callee) cs) calls.now) }
{
    let mut graph = CallGraph::new(alloc);
    for list in calls {
        graph.push(callees_of(alloc, list.as_slice())?)?;
    }
    Ok(graph)
}

fn list_at(calls: &[StepCalls], node: usize) -> Option<&StepCalls>
    ensures { option_map (λ c. c.now) result ≡ slice_get calls.now node }
{
    calls.get(node)
}

// The call of a graph, where it stands in the calls of each sequence.
fn call_at(calls: &[StepCalls], at: CallSpot) -> &StepCall
    requires { (callee : ℕ) × IsCallOf (map (λ cs. map (λ c. c.callee) cs) calls.now) at callee }
    ensures { (list : List StepCall) × (slice_get calls.now at.node ≡ Some list) × (slice_get list at.call ≡ Some result.now) }
{
    match list_at(calls, at.node) {
        Some(list) => match list.get(at.call) {
            Some(call) => call,
            None => unreachable!(),
        },
        None => unreachable!(),
    }
}

/// Where a call of the set's graph stands in the set. `OutOfMemory` where memory is refused.
pub fn call_spot(
    alloc: Global,
    set: &ReadSet,
    calls: &[StepCalls],
    at: CallSpot,
) -> Result<Spot, OutOfMemory>
    requires calls { calls.now ≡ set_calls (set_trees set.now) }
    requires call { (callee : ℕ) × IsCallOf (call_graph (set_trees set.now)) at callee }
    ensures { IfOk result (IsCallAt (set_trees set.now) at) }
{
    let call = call_at(calls, at);
    let name = NameText::new(alloc, name_of(set, at.node))?;
    Ok(Spot {
        sequence: Some(name),
        path: copy_path(alloc, call.path.as_slice())?,
        part: call.part,
        place: call.place,
    })
}
