//! Laws of graphs, as the contracts of functions that do nothing.

ghost use Rattle.std.specs.Prelude.{◌⊎◌, ℕ, List};
ghost use Rattle.call_graph.specs.declared.graph.CallSpot.{CallSpot};
ghost use Rattle.call_graph.specs.Spots.{IsFirst, IsInCycle, IsDeep};

/// A call in a cycle begins too deep a chain, so a graph without such a chain has no cycle.
pub fn cycles_are_deep()
    ensures { (graph : List (List ℕ)) (spot : CallSpot) → IsInCycle graph spot → IsDeep graph spot }
{}

/// Each graph has a first call in a cycle, or no call is in one. It has a first call that begins too deep a chain, or no call begins one.
pub fn first_call_or_none()
    ensures cycle { (graph : List (List ℕ)) → ((spot : CallSpot) × IsFirst (IsInCycle graph) spot) ⊎ ((spot : CallSpot) → IsInCycle graph spot → ⊥) }
    ensures deep { (graph : List (List ℕ)) → ((spot : CallSpot) × IsFirst (IsDeep graph) spot) ⊎ ((spot : CallSpot) → IsDeep graph spot → ⊥) }
{}
