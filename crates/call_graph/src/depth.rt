//! Chains of 33 nodes.

ghost use Rattle.std.specs.Prelude.{◌≡◌, ◌↔◌, ◌≤◌, ℕ, true, IfOk};
ghost use Rattle.call_graph.specs.Graph.{BeginsChain};
ghost use Rattle.call_graph.specs.Spots.{IsDeep, FindsFirst};
ghost use Rattle.call_graph.specs.Marks.{is_marked, IsInto};

use crate::graph::{CallGraph, CallSpot};
use crate::marks::{all_marks, callers, first_marked};
use dap_base::OutOfMemory;
use std::alloc::Global;

/// The number of nodes of a chain that is too deep: one more than may call one another.
pub const TOO_DEEP: usize = 33;

/// The first call, by node and then by place, that begins, with the node that it stands in, a chain
/// of 33 nodes, each of which calls the next. `None` exactly where no call does.
/// `OutOfMemory` where memory is refused. The calls are gone through 32 times.
pub fn first_deep(alloc: Global, graph: &CallGraph) -> Result<Option<CallSpot>, OutOfMemory>
    ensures { IfOk result (FindsFirst (IsDeep graph.now)) }
{
    let marks = chain_beginnings(alloc, graph, TOO_DEEP - 1)?;
    Ok(first_into(graph, marks.as_slice()))
}

/// The nodes at which a chain of `count` nodes begins. `OutOfMemory` where memory is refused.
pub fn chain_beginnings(
    alloc: Global,
    graph: &CallGraph,
    count: usize,
) -> Result<Vec<bool>, OutOfMemory>
    requires { 1 ≤ count }
    ensures { IfOk result (λ marks. (v : ℕ) → (is_marked marks.items v ≡ true) ↔ BeginsChain graph.now v count) }
{
    let mut marks = all_marks(alloc, graph, true)?;
    let mut reached = 1;
    while reached < count {
        marks = callers(alloc, graph, marks.as_slice())?;
        reached += 1;
    }
    Ok(marks)
}

// The first call of a marked node.
fn first_into(graph: &CallGraph, marks: &[bool]) -> Option<CallSpot>
    ensures { FindsFirst (IsInto graph.now marks.now) result }
{
    for node in 0..graph.len() {
        if let Some(call) = first_marked(graph.callees(node), marks) {
            return Some(CallSpot { node, call });
        }
    }
    None
}
