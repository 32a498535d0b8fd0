//! Sets of nodes, as a mark for each node.

ghost use Rattle.std.specs.Prelude.{◌≡◌, ◌↔◌, ◌<◌, false, true, length, map, position, replicate, IfOk, IsTrue};
ghost use Rattle.std.specs.List.{list_any};
ghost use Rattle.call_graph.specs.Graph.{callees_of};
ghost use Rattle.call_graph.specs.Marks.{is_marked, callers_of};

use crate::graph::CallGraph;
use dap_base::OutOfMemory;
use std::alloc::Global;

/// A mark for each node of a graph, all alike. `OutOfMemory` where memory is refused.
pub fn all_marks(alloc: Global, graph: &CallGraph, mark: bool) -> Result<Vec<bool>, OutOfMemory>
    ensures { IfOk result (λ marks. marks.items ≡ replicate (length graph.now) mark) }
{
    match vec![in alloc; mark; graph.len()] {
        Ok(marks) => Ok(marks),
        Err(_) => Err(OutOfMemory),
    }
}

/// Whether the node is marked; a number that is no node is not.
pub fn is_marked(marks: &[bool], node: usize) -> bool
    ensures { result ≡ is_marked marks.now node }
{
    match marks.get(node) {
        Some(mark) => *mark,
        None => false,
    }
}

/// Whether the number is a node and the node is not marked.
pub fn is_unmarked(marks: &[bool], node: usize) -> bool
    ensures { IsTrue result ↔ ((node < length marks.now) × (is_marked marks.now node ≡ false)) }
{
    match marks.get(node) {
        Some(mark) => !*mark,
        None => false,
    }
}

/// The place of the first marked callee.
pub fn first_marked(callees: &[usize], marks: &[bool]) -> Option<usize>
    ensures { result ≡ position (is_marked marks.now) callees.now }
{
    callees.iter().position(|callee| is_marked(marks, *callee))
}

fn calls_marked(callees: &[usize], marks: &[bool]) -> bool
    ensures { result ≡ list_any (is_marked marks.now) callees.now }
{
    callees.iter().any(|callee| is_marked(marks, *callee))
}

/// The nodes that call a marked one.
pub fn callers(alloc: Global, graph: &CallGraph, marks: &[bool]) -> Result<Vec<bool>, OutOfMemory>
    ensures { IfOk result (λ callers. callers.items ≡ callers_of graph.now marks.now) }
{
    let mut callers = Vec::new(alloc);
    for node in 0..graph.len() {
        if callers
            .push(calls_marked(graph.callees(node), marks))
            .is_err()
        {
            return Err(OutOfMemory);
        }
    }
    Ok(callers)
}
