//! A graph of calls.

ghost use Rattle.std.specs.Prelude.{◌≡◌, ◌↔◌, ◌++◌, [], ◌∷◌, length, IsTrue, OnOk, OnErr};
ghost use Rattle.call_graph.specs.Graph.{callees_of};

use dap_base::{ItemList, OutOfMemory};
use std::alloc::Global;
use std::marker::Model;

/// A call of a graph.
#[derive(Clone, Copy, Debug, PartialEq, Eq)]
pub struct CallSpot {
    /// The node that the call stands in, counted from 0.
    pub node: usize,
    /// The call's place among those of its node, counted from 0.
    pub call: usize,
}

/// Nodes, numbered from 0, and for each the nodes that it calls, in order. A call may be of a number
/// that is no node, or none yet; as long as it is none, nothing is called. Contracts see the list of
/// the lists of callees.
#[derive(Debug, Drop)]
pub struct CallGraph {
    nodes: ItemList<ItemList<usize>>,
}

impl Model for CallGraph {
    ghost use Rattle.std.specs.Prelude.{ℕ, List};

    ghost Value = { List (List ℕ) };

    ghost view = { λ g. g.nodes };
}

impl CallGraph {
    /// The graph without nodes. Nothing is allocated.
    pub fn new(alloc: Global) -> CallGraph
        ensures { result ≡ [] }
    {
        CallGraph {
            nodes: ItemList::new(alloc),
        }
    }

    /// The number of nodes.
    pub fn len(&self) -> usize
        ensures { result ≡ length self.now }
    {
        self.nodes.len()
    }

    /// Whether the graph has no nodes.
    pub fn is_empty(&self) -> bool
        ensures { IsTrue result ↔ (self.now ≡ []) }
    {
        self.nodes.is_empty()
    }

    /// The nodes that `node` calls, in order, lent without a copy; none where there is no such node.
    pub fn callees(&self, node: usize) -> &[usize]
        ensures { result.now ≡ callees_of self.now node }
    {
        match self.nodes.get(node) {
            Some(callees) => callees.as_slice(),
            None => &[],
        }
    }

    /// Adds a node with these calls, whose number is that of the nodes before it. Where memory is
    /// refused, the graph is unchanged and `callees` is dropped.
    pub fn push(&mut self, callees: ItemList<usize>) -> Result<(), OutOfMemory>
        ensures ok { OnOk result (self.new ≡ self.old ++ callees ∷ []) }
        ensures err { OnErr result (self.new ≡ self.old) }
    {
        self.nodes.push(callees)
    }
}
