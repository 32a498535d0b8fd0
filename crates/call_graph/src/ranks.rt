//! Numbers of nodes that fall along calls.

ghost use Rattle.std.specs.Prelude.{◌≡◌, ◌≤◌, ◌↔◌, ℕ, true, length, IfOk, IsTrue};
ghost use Rattle.std.specs.List.{All, Any};
ghost use Rattle.call_graph.specs.Marks.{is_marked};
ghost use Rattle.call_graph.specs.Ranks.{rank_of, Fall, CallsLevel};

use crate::graph::CallGraph;
use crate::walk::Walk;
use dap_base::OutOfMemory;
use std::alloc::Global;

/// A number for each node. It is meant to be that of the node's component of calls, in an order in
/// which components are numbered before those that lead to them. Then a call is of a node of the
/// same rank where it is in a cycle, and else of one of a lower rank. Only `fall` says whether no
/// call is of a node of a greater one. `OutOfMemory` where memory is refused.
pub fn ranks_of(alloc: Global, graph: &CallGraph) -> Result<Vec<usize>, OutOfMemory>
    ensures { IfOk result (λ ranks. length ranks.items ≡ length graph.now) }
{
    let walk = walk_graph(alloc, graph)?;
    let mut ranks = Vec::new(alloc);
    for node in 0..graph.len() {
        if ranks.push(walk.rank(node)).is_err() {
            return Err(OutOfMemory);
        }
    }
    Ok(ranks)
}

fn walk_graph(alloc: Global, graph: &CallGraph) -> Result<Walk, OutOfMemory> {
    let mut walk = Walk::new(alloc, graph)?;
    for _ in 0..steps(graph) {
        walk.step(graph)?;
    }
    Ok(walk)
}

// As many steps as a walk takes at most: each node is begun at or passed over, come to along a call
// and left, and each call is gone along.
fn steps(graph: &CallGraph) -> usize {
    let mut steps: usize = 0;
    for node in 0..graph.len() {
        steps = steps
            .saturating_add(3)
            .saturating_add(graph.callees(node).len());
    }
    steps
}

fn rank(ranks: &[usize], node: usize) -> usize
    ensures { result ≡ rank_of ranks.now node }
{
    match ranks.get(node) {
        Some(rank) => *rank,
        None => 0,
    }
}

/// Whether each call is of a node of at most the caller's rank.
pub fn fall(graph: &CallGraph, ranks: &[usize]) -> bool
    requires { length ranks.now ≡ length graph.now }
    ensures { IsTrue result ↔ Fall graph.now ranks.now }
{
    for node in 0..graph.len() {
        if !calls_at_most(graph.callees(node), ranks, rank(ranks, node)) {
            return false;
        }
    }
    true
}

fn calls_at_most(callees: &[usize], ranks: &[usize], most: usize) -> bool
    ensures { IsTrue result ↔ All (λ w. rank_of ranks.now w ≤ most) callees.now }
{
    callees.iter().all(|callee| rank(ranks, *callee) <= most)
}

/// A mark for each node that calls one of its own rank.
pub fn level_callers(
    alloc: Global,
    graph: &CallGraph,
    ranks: &[usize],
) -> Result<Vec<bool>, OutOfMemory>
    ensures { IfOk result (λ marks. (v : ℕ) → (is_marked marks.items v ≡ true) ↔ CallsLevel graph.now ranks.now v) }
{
    let mut marks = Vec::new(alloc);
    for node in 0..graph.len() {
        if marks
            .push(calls_rank(graph.callees(node), ranks, rank(ranks, node)))
            .is_err()
        {
            return Err(OutOfMemory);
        }
    }
    Ok(marks)
}

fn calls_rank(callees: &[usize], ranks: &[usize], own: usize) -> bool
    ensures { IsTrue result ↔ Any (λ w. rank_of ranks.now w ≡ own) callees.now }
{
    callees.iter().any(|callee| rank(ranks, *callee) == own)
}
