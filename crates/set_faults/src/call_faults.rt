//! The calls of a set that lead back or too deep, as faults.
ghost use Rattle.std.specs.Prelude.{◌≡◌, ℕ, [], IfOk};
ghost use Rattle.sequence_trees.specs.SetView.{set_trees};
ghost use Rattle.call_graph.specs.Spots.{IsCallOf};
ghost use Rattle.seq_check.specs.SetFaults.{names_of};
ghost use Rattle.seq_check.specs.Calls.{set_calls, call_graph};
ghost use Rattle.set_faults.specs.Calls.{IsFaultAt, AreCallsAt, AreCalls, AreCycles};
ghost use Rattle.set_faults.specs.Rules.{AreRuleFaults};
ghost use Rattle.set_faults.specs.Answers.{AreReadSetFaults};

use crate::graph_calls::{calls_back, deep_calls};
use crate::phase::{Phase, SetFaults};
use crate::site::Fault;
use call_graph::{CallGraph, CallSpot};
use code_check::{FaultKind, Names};
use dap_base::{ItemList, OutOfMemory};
use seq_check::set_calls::{StepCalls, call_spot, graph_of, set_calls};
use sequence_trees::ReadSet;
use std::alloc::Global;

// The call as a fault of this kind, where it is in the set.
fn fault_at(
    alloc: Global,
    set: &ReadSet,
    calls: &[StepCalls],
    kind: FaultKind,
    call: &CallSpot,
) -> Result<Fault, OutOfMemory>
    requires calls { calls.now ≡ set_calls (set_trees set.now) }
    requires call { (callee : ℕ) × IsCallOf (call_graph (set_trees set.now)) call.now callee }
    ensures { IfOk result (IsFaultAt (set_trees set.now) kind call.now) }
{
    let spot = call_spot(alloc, set, calls, *call)?;
    Ok(Fault { kind, spot })
}

// The calls as faults of this kind.
fn faults_at(
    alloc: Global,
    set: &ReadSet,
    calls: &[StepCalls],
    kind: FaultKind,
    found: &[CallSpot],
) -> Result<ItemList<Fault>, OutOfMemory>
    requires calls { calls.now ≡ set_calls (set_trees set.now) }
    requires are { AreCalls (set_trees set.now) found.now }
    ensures { IfOk result (AreCallsAt (set_trees set.now) kind found.now) }
{
    let mut faults = ItemList::new(alloc);
    for call in found {
        faults.push(fault_at(alloc, set, calls, kind, call)?)?;
    }
    Ok(faults)
}

// The calls too deep of a set in which none leads back.
fn depth_faults(
    alloc: Global,
    set: &ReadSet,
    calls: &[StepCalls],
    graph: &CallGraph,
) -> Result<SetFaults, OutOfMemory>
    requires calls { calls.now ≡ set_calls (set_trees set.now) }
    requires graph { graph.now ≡ call_graph (set_trees set.now) }
    requires rules { AreRuleFaults (set_trees set.now) [] }
    requires cycles { AreCycles (set_trees set.now) [] }
    ensures { IfOk result (AreReadSetFaults (set_trees set.now)) }
{
    let deep = deep_calls(alloc, graph)?;
    let faults = faults_at(alloc, set, calls, FaultKind::CallsTooDeep, deep.as_slice())?;
    Ok(SetFaults {
        phase: Phase::Depth,
        faults,
    })
}

/// The faults of a set that has none of names, arguments and steps: all calls that lead back and, where there is
/// none, all that are too deep. `sequences` are the names of the set. `OutOfMemory` where memory is refused.
pub fn call_faults(
    alloc: Global,
    set: &ReadSet,
    sequences: &Names,
) -> Result<SetFaults, OutOfMemory>
    requires names { sequences.now ≡ names_of (set_trees set.now) }
    requires rules { AreRuleFaults (set_trees set.now) [] }
    ensures { IfOk result (AreReadSetFaults (set_trees set.now)) }
{
    let calls = set_calls(alloc, set, sequences)?;
    let graph = graph_of(alloc, calls.as_slice())?;
    let back = calls_back(alloc, &graph)?;
    if back.is_empty() {
        return depth_faults(alloc, set, calls.as_slice(), &graph);
    }
    let faults = faults_at(
        alloc,
        set,
        calls.as_slice(),
        FaultKind::CallCycle,
        back.as_slice(),
    )?;
    Ok(SetFaults {
        phase: Phase::Cycles,
        faults,
    })
}
