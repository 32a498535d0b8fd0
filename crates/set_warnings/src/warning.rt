//! Warnings, and where they stand.
use dap_base::NameText;
use sequence_trees::Spot;

/// What a warning is of.
#[derive(Clone, Copy, Debug, PartialEq, Eq)]
pub enum WarningKind {
    /// An assignment to a debug variable, which some debuggers keep as it was declared.
    AssignedDebugVariable,
    /// A wait for a status that would be a poll, and so few packets, if each name in it were a number.
    WaitByName,
    /// A sequence that no sequence of the set calls, and that no debugger starts by itself.
    UncalledSequence,
    /// A `while` with more turns than a run may have units, at 10 microseconds a turn.
    LongWait,
}

/// A warning of a set.
#[derive(Debug, Drop)]
pub struct Warning {
    /// What it is of.
    pub kind: WarningKind,
    /// Where it stands. One of a control itself has the place 0:0; one of a sequence itself has that too, and no path.
    pub spot: Spot,
    /// The variable that is assigned, or the first name that is waited by; none for the other kinds.
    pub name: Option<NameText>,
}
