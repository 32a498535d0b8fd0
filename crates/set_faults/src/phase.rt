//! The faults of a set, and the phase of the check that has them.
use crate::site::Fault;
use dap_base::ItemList;

/// The phases of the check of a set, in order. A set with a fault in one of them is not checked by the later ones.
#[derive(Clone, Copy, Debug, PartialEq, Eq)]
pub enum Phase {
    /// Whether the texts are code and conditions.
    Syntax,
    /// Names, arguments and steps.
    Rules,
    /// Calls that lead back to the sequence that they stand in.
    Cycles,
    /// Calls that begin a chain of 33 sequences.
    Depth,
}

/// The faults of a set.
#[derive(Debug, Drop)]
pub struct SetFaults {
    /// The phase that has them: the first one that has any, and the last one where the set is valid.
    pub phase: Phase,
    /// All faults of that phase, in the order of the check. Of a text that can not be read it is the first alone.
    pub faults: ItemList<Fault>,
}
