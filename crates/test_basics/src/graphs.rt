//! Graphs of calls. A text is `chain COUNT`, a chain of so many nodes, or `chain COUNT NODE`, of which the last calls this node;
//! or the nodes that each node calls, with `/` between the nodes.
use crate::texts::{no_memory, numbers_of};
use call_graph::{CallGraph, CallSpot, fall, first_cycle, first_deep, ranks_of};
use dap_base::{ItemList, OutOfMemory};
use std::alloc::{AllocError, Global};

// The nodes of a text; a word that is no number counts for nothing.
fn nodes_of(alloc: Global, text: &str) -> Result<ItemList<usize>, OutOfMemory> {
    let mut nodes = ItemList::new(alloc);
    for number in numbers_of(alloc, text)?.as_slice() {
        nodes.push(usize::try_from(*number).unwrap_or(usize::MAX))?;
    }
    Ok(nodes)
}

// A chain of so many nodes, the last of which calls these.
fn chain(alloc: Global, count: usize, last: ItemList<usize>) -> Result<CallGraph, OutOfMemory> {
    let mut graph = CallGraph::new(alloc);
    for node in 1..count {
        let mut list = ItemList::new(alloc);
        list.push(node)?;
        graph.push(list)?;
    }
    graph.push(last)?;
    Ok(graph)
}

// The chain of a count and a node, if there is one.
fn chain_of(alloc: Global, text: &str) -> Result<CallGraph, OutOfMemory> {
    let (count, last) = text.split_once(' ').unwrap_or((text, ""));
    let count = nodes_of(alloc, count)?.get(0).copied().unwrap_or(0);
    chain(alloc, count, nodes_of(alloc, last)?)
}

fn graph_of(alloc: Global, text: &str) -> Result<CallGraph, OutOfMemory> {
    if let Some(numbers) = text.strip_prefix("chain ") {
        return chain_of(alloc, numbers);
    }
    let mut graph = CallGraph::new(alloc);
    for callees in text.split('/') {
        graph.push(nodes_of(alloc, callees)?)?;
    }
    Ok(graph)
}

fn spot_text(alloc: Global, spot: Option<CallSpot>) -> Result<String, AllocError> {
    match spot {
        Some(CallSpot { node, call }) => format!(in alloc; "node {node} call {call}"),
        None => String::from_str(alloc, "none"),
    }
}

/// The first call in a cycle.
pub(crate) fn cycle_text(alloc: Global, text: &str) -> Result<String, AllocError> {
    let graph = graph_of(alloc, text).map_err(no_memory)?;
    let spot = first_cycle(alloc, &graph).map_err(no_memory)?;
    spot_text(alloc, spot)
}

/// The first call that begins too deep a chain.
pub(crate) fn deep_text(alloc: Global, text: &str) -> Result<String, AllocError> {
    let graph = graph_of(alloc, text).map_err(no_memory)?;
    let spot = first_deep(alloc, &graph).map_err(no_memory)?;
    spot_text(alloc, spot)
}

/// The rank of each node, and whether each call is of a node of at most the caller's rank.
pub(crate) fn ranks_text(alloc: Global, text: &str) -> Result<String, AllocError> {
    let graph = graph_of(alloc, text).map_err(no_memory)?;
    let ranks = ranks_of(alloc, &graph).map_err(no_memory)?;
    let falls = fall(&graph, ranks.as_slice());
    let is = if falls { "fall" } else { "rise" };
    format!(in alloc; "{ranks:?} {is}")
}

/// How many nodes there are.
pub(crate) fn nodes_text(alloc: Global, text: &str) -> Result<String, AllocError> {
    let graph = graph_of(alloc, text).map_err(no_memory)?;
    let count = graph.len();
    let is = if graph.is_empty() {
        "empty"
    } else {
        "not empty"
    };
    format!(in alloc; "{count}, {is}")
}

/// The nodes that a node calls, which stands before the graph and `:`.
pub(crate) fn callees_text(alloc: Global, text: &str) -> Result<String, AllocError> {
    let (node, graph) = text.split_once(':').unwrap_or((text, ""));
    let graph = graph_of(alloc, graph).map_err(no_memory)?;
    let node = nodes_of(alloc, node).map_err(no_memory)?;
    let node = node.get(0).copied().unwrap_or(usize::MAX);
    let mut text = String::from_str(alloc, "calls")?;
    for callee in graph.callees(node) {
        let callee = format!(in alloc; " {callee}")?;
        text.push_str(callee.as_str())?;
    }
    Ok(text)
}
