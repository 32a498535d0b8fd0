//! Calls that lead back to the node that they stand in.

ghost use Rattle.std.specs.Prelude.{◌≡◌, ◌↔◌, ◌<◌, ◌++◌, length, IfOk, OnOk, IsTrue};
ghost use Rattle.std.specs.Bool.{OnFalse};
ghost use Rattle.call_graph.specs.Spots.{IsInCycle, FindsFirst};
ghost use Rattle.call_graph.specs.Marks.{Avoids, MarksCycles, Reaches, FindsFirstIn};

use crate::depth::{TOO_DEEP, chain_beginnings};
use crate::graph::{CallGraph, CallSpot};
use crate::marks::{all_marks, is_marked, is_unmarked};
use crate::ranks::{fall, level_callers, ranks_of};
use dap_base::OutOfMemory;
use std::alloc::Global;

/// The first call, by node and then by place, of the node that it stands in or of a node from which calls lead back to that. `None` exactly
/// where there is none. `OutOfMemory` where memory is refused. The calls are gone through `TOO_DEEP` times. Where there is a chain of
/// `TOO_DEEP` nodes, they are gone through a few times more. That numbers the nodes by components of calls, and makes one search from the
/// node of the answer.
pub fn first_cycle(alloc: Global, graph: &CallGraph) -> Result<Option<CallSpot>, OutOfMemory>
    ensures { IfOk result (FindsFirst (IsInCycle graph.now)) }
{
    let candidates = cycle_candidates(alloc, graph)?;
    for node in 0..graph.len() {
        if is_marked(candidates.as_slice(), node) {
            if let Some(call) = first_back(alloc, graph, node)? {
                return Ok(Some(CallSpot { node, call }));
            }
        }
    }
    Ok(None)
}

/// A mark for each node with a call in a cycle. Another node is marked only where the ranks are not
/// those of components; it is then searched from in vain. `OutOfMemory` where memory is refused.
pub fn cycle_candidates(alloc: Global, graph: &CallGraph) -> Result<Vec<bool>, OutOfMemory>
    ensures { IfOk result (λ marks. MarksCycles graph.now marks.items) }
{
    // A node of a cycle begins chains of any length, and most graphs have no long ones.
    let deep = chain_beginnings(alloc, graph, TOO_DEEP)?;
    if !deep.as_slice().contains(&true) {
        return Ok(deep);
    }
    let ranks = ranks_of(alloc, graph)?;
    if !fall(graph, ranks.as_slice()) {
        return Ok(deep);
    }
    level_callers(alloc, graph, ranks.as_slice())
}

// The first call of the node that leads back to it.
fn first_back(alloc: Global, graph: &CallGraph, node: usize) -> Result<Option<usize>, OutOfMemory>
    requires { node < length graph.now }
    ensures { IfOk result (FindsFirstIn (IsInCycle graph.now) node) }
{
    let mut seen = all_marks(alloc, graph, false)?;
    for (call, callee) in graph.callees(node).iter().enumerate() {
        if reaches(alloc, graph, *callee, node, &mut seen)? {
            return Ok(Some(call));
        }
    }
    Ok(None)
}

/// Whether the target is reached from a node: whether it is that node, or calls lead to it. The nodes
/// seen before don't reach the target and aren't gone through again; where this one doesn't either,
/// it and what it leads to is seen. `OutOfMemory` where memory is refused.
pub fn reaches(
    alloc: Global,
    graph: &CallGraph,
    from: usize,
    target: usize,
    seen: &mut Vec<bool>,
) -> Result<bool, OutOfMemory>
    requires exists { target < length graph.now }
    requires avoids { Avoids graph.now target seen.old.items }
    ensures reached { IfOk result (λ is. IsTrue is ↔ Reaches graph.now from target) }
    ensures avoids { IfOk result (λ is. OnFalse is (Avoids graph.now target seen.new.items)) }
{
    let mut work = Vec::new(alloc);
    append(&mut work, &[from])?;
    while let Some(node) = work.pop() {
        if node == target {
            return Ok(true);
        }
        if is_unmarked(seen.as_slice(), node) {
            seen[node] = true;
            append(&mut work, graph.callees(node))?;
        }
    }
    Ok(false)
}

fn append(work: &mut Vec<usize>, nodes: &[usize]) -> Result<(), OutOfMemory>
    ensures ok { OnOk result (work.new.items ≡ work.old.items ++ nodes.now) }
{
    work.extend_from_slice(nodes).map_err(|_| OutOfMemory)
}
