//! A walk along calls that numbers the components of a graph, after Tarjan. It is proved to be safe
//! and to end; of its numbers nothing is, so who uses them looks at them first.

use crate::graph::CallGraph;
use dap_base::OutOfMemory;
use std::alloc::Global;

// How far the walk has come with a node.
#[derive(Clone, Copy, Debug, PartialEq, Eq)]
enum State {
    /// Not come to.
    New,
    /// Come to, in a component that is not complete; with the least place of such a node that it is
    /// known to lead to.
    Open(usize),
    /// In a complete component, with the number of that.
    Complete(usize),
}

// A node that the walk is in.
#[derive(Clone, Copy, Debug)]
struct Visit {
    node: usize,
    /// The node's place in the order in which nodes are come to.
    place: usize,
    /// The call that is gone along next.
    call: usize,
}

/// A walk along all calls of a graph.
#[derive(Debug, Drop)]
pub struct Walk {
    states: Vec<State>,
    /// The nodes that the walk is in, each of which calls the next.
    path: Vec<Visit>,
    /// The nodes come to that are in no complete component, in the order in which they were.
    open: Vec<usize>,
    /// The number of nodes at which the walk has begun, or passed over as it had come to them.
    begun: usize,
    /// The number of nodes come to.
    entered: usize,
    /// The number of complete components.
    completed: usize,
}

impl Walk {
    /// The walk before its first step. `OutOfMemory` where memory is refused.
    pub fn new(alloc: Global, graph: &CallGraph) -> Result<Walk, OutOfMemory> {
        match vec![in alloc; State::New; graph.len()] {
            Ok(states) => Ok(Walk {
                states,
                path: Vec::new(alloc),
                open: Vec::new(alloc),
                begun: 0,
                entered: 0,
                completed: 0,
            }),
            Err(_) => Err(OutOfMemory),
        }
    }

    /// Goes along a call, out of a node, or to the next one to begin at, of which there may be none.
    /// `OutOfMemory` where memory is refused.
    pub fn step(&mut self, graph: &CallGraph) -> Result<(), OutOfMemory> {
        match self.path.pop() {
            Some(visit) => match graph.callees(visit.node).get(visit.call) {
                Some(callee) => self.follow(visit, *callee),
                None => {
                    self.leave(visit);
                    Ok(())
                }
            },
            None => self.begin(),
        }
    }

    /// The number of the node's component, from 1; 0 before that is complete.
    pub fn rank(&self, node: usize) -> usize {
        match self.state(node) {
            State::Complete(rank) => rank,
            _ => 0,
        }
    }

    // A number that is no node calls nothing, so it is in no component with others.
    fn state(&self, node: usize) -> State {
        match self.states.get(node) {
            Some(state) => *state,
            None => State::Complete(0),
        }
    }

    fn put(&mut self, node: usize, state: State) {
        if let Some(place) = self.states.get_mut(node) {
            *place = state;
        }
    }

    fn begin(&mut self) -> Result<(), OutOfMemory> {
        let node = self.begun;
        self.begun = node.saturating_add(1);
        if self.state(node) == State::New {
            self.enter(node)
        } else {
            Ok(())
        }
    }

    fn enter(&mut self, node: usize) -> Result<(), OutOfMemory> {
        let place = self.entered;
        self.entered = place.saturating_add(1);
        self.put(node, State::Open(place));
        self.open.push(node).map_err(|_| OutOfMemory)?;
        self.be_in(Visit {
            node,
            place,
            call: 0,
        })
    }

    fn be_in(&mut self, visit: Visit) -> Result<(), OutOfMemory> {
        self.path.push(visit).map_err(|_| OutOfMemory)
    }

    // Goes along a call. One to a node that is new is gone along again once that is left.
    fn follow(&mut self, visit: Visit, callee: usize) -> Result<(), OutOfMemory> {
        let state = self.state(callee);
        if state == State::New {
            self.be_in(visit)?;
            return self.enter(callee);
        }
        if let State::Open(place) = state {
            self.lower(visit.node, place);
        }
        self.be_in(Visit {
            call: visit.call.saturating_add(1),
            ..visit
        })
    }

    fn lower(&mut self, node: usize, place: usize) {
        if let State::Open(least) = self.state(node) {
            self.put(node, State::Open(least.min(place)));
        }
    }

    // Leaves a node. One that leads to no earlier open node is the first of its component.
    fn leave(&mut self, visit: Visit) {
        if self.state(visit.node) == State::Open(visit.place) {
            self.completed = self.completed.saturating_add(1);
            self.complete(visit.node);
        }
    }

    // Completes the component of the open nodes from this one on.
    fn complete(&mut self, first: usize) {
        for _ in 0..self.open.len() {
            if let Some(node) = self.open.pop() {
                self.put(node, State::Complete(self.completed));
                if node == first {
                    return;
                }
            }
        }
    }
}
