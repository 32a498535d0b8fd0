//! All calls of a graph that lead back, and all that begin too deep a chain.
ghost use Rattle.std.specs.Prelude.{◌≡◌, ◌↔◌, ◌<◌, ◌++◌, IsTrue, IfOk, OnOk, length};
ghost use Rattle.call_graph.specs.Spots.{IsInCycle, IsDeep};
ghost use Rattle.call_graph.specs.Marks.{IsInto, MarksCycles, Reaches};
ghost use Rattle.set_faults.specs.Listed.{IsListOf};
ghost use Rattle.set_faults.specs.Calls.{is_call_before, call_if, AtNode, AddsCalls};

use call_graph::{
    CallGraph, CallSpot, TOO_DEEP, all_marks, chain_beginnings, cycle_candidates, is_marked,
    reaches,
};
use dap_base::{ItemList, OutOfMemory};
use std::alloc::Global;

// Adds the call, where it is one of them.
fn add_if(is_one: bool, call: CallSpot, found: &mut ItemList<CallSpot>) -> Result<(), OutOfMemory>
    ensures { OnOk result (found.new ≡ found.old ++ call_if is_one call) }
{
    if is_one { found.push(call) } else { Ok(()) }
}

// Whether a callee of the node is the node, or leads to it.
fn leads_back(
    alloc: Global,
    graph: &CallGraph,
    node: usize,
    callee: usize,
) -> Result<bool, OutOfMemory>
    requires { node < length graph.now }
    ensures { IfOk result (λ is. IsTrue is ↔ Reaches graph.now callee node) }
{
    let mut seen = all_marks(alloc, graph, false)?;
    reaches(alloc, graph, callee, node, &mut seen)
}

// Adds the calls of the node that lead back to it.
fn add_back(
    alloc: Global,
    graph: &CallGraph,
    node: usize,
    found: &mut ItemList<CallSpot>,
) -> Result<(), OutOfMemory>
    requires { node < length graph.now }
    ensures { OnOk result (AddsCalls (AtNode (IsInCycle graph.now) node) found.old found.new) }
{
    for (call, callee) in graph.callees(node).iter().enumerate() {
        let is_back = leads_back(alloc, graph, node, *callee)?;
        add_if(is_back, CallSpot { node, call }, found)?;
    }
    Ok(())
}

// Adds the calls of the node that lead back to it, where it is a candidate. No other node has one.
fn add_node(
    alloc: Global,
    graph: &CallGraph,
    candidates: &[bool],
    node: usize,
    found: &mut ItemList<CallSpot>,
) -> Result<(), OutOfMemory>
    requires exists { node < length graph.now }
    requires marks { MarksCycles graph.now candidates.now }
    ensures { OnOk result (AddsCalls (AtNode (IsInCycle graph.now) node) found.old found.new) }
{
    if !is_marked(candidates, node) {
        return Ok(());
    }
    add_back(alloc, graph, node, found)
}

// All calls of candidates that lead back.
fn calls_among(
    alloc: Global,
    graph: &CallGraph,
    candidates: &[bool],
) -> Result<ItemList<CallSpot>, OutOfMemory>
    requires { MarksCycles graph.now candidates.now }
    ensures { IfOk result (IsListOf is_call_before (IsInCycle graph.now)) }
{
    let mut found = ItemList::new(alloc);
    for node in 0..graph.len() {
        add_node(alloc, graph, candidates, node, &mut found)?;
    }
    Ok(found)
}

/// All calls that lead back to the node that they stand in, by node and then by place. `OutOfMemory` where memory
/// is refused. Where no chain has 33 nodes, the calls are gone through 33 times; else once more for each call of a
/// node with a call that leads back.
pub fn calls_back(alloc: Global, graph: &CallGraph) -> Result<ItemList<CallSpot>, OutOfMemory>
    ensures { IfOk result (IsListOf is_call_before (IsInCycle graph.now)) }
{
    let candidates = cycle_candidates(alloc, graph)?;
    calls_among(alloc, graph, candidates.as_slice())
}

// Adds the calls of the node that are of a marked one.
fn add_into(
    graph: &CallGraph,
    marks: &[bool],
    node: usize,
    found: &mut ItemList<CallSpot>,
) -> Result<(), OutOfMemory>
    ensures { OnOk result (AddsCalls (AtNode (IsInto graph.now marks.now) node) found.old found.new) }
{
    for (call, callee) in graph.callees(node).iter().enumerate() {
        add_if(is_marked(marks, *callee), CallSpot { node, call }, found)?;
    }
    Ok(())
}

// All calls of a marked node.
fn calls_into(
    alloc: Global,
    graph: &CallGraph,
    marks: &[bool],
) -> Result<ItemList<CallSpot>, OutOfMemory>
    ensures { IfOk result (IsListOf is_call_before (IsInto graph.now marks.now)) }
{
    let mut found = ItemList::new(alloc);
    for node in 0..graph.len() {
        add_into(graph, marks, node, &mut found)?;
    }
    Ok(found)
}

/// All calls that begin, with the node that they stand in, a chain of 33 nodes, by node and then by place.
/// `OutOfMemory` where memory is refused. The calls are gone through 32 times.
pub fn deep_calls(alloc: Global, graph: &CallGraph) -> Result<ItemList<CallSpot>, OutOfMemory>
    ensures { IfOk result (IsListOf is_call_before (IsDeep graph.now)) }
{
    let marks = chain_beginnings(alloc, graph, TOO_DEEP - 1)?;
    calls_into(alloc, graph, marks.as_slice())
}
