//! The faults of a pack.
use crate::request::SetName;
use dap_base::{ItemList, NameText};
use set_faults::Fault;

/// A fault, and the line in which it is.
#[derive(Debug, Drop)]
pub struct Found {
    pub fault: Fault,
    /// The line of the text at the place of the fault, without its line feed. None for a fault of a control itself.
    pub line: Option<NameText>,
}

/// A fault of a pack: the same wherever kind, spot and line are the same.
#[derive(Debug, Drop)]
pub struct PackFault {
    pub found: Found,
    /// The sets that have it, by their places in `PackFaults::sets`, from 0 on, rising.
    pub sets: ItemList<usize>,
}

/// The faults of a pack.
#[derive(Debug, Drop)]
pub struct PackFaults {
    /// How many devices have a set that was checked, each counted by its place in the pack.
    pub devices: usize,
    /// The sets that were checked, in order.
    pub sets: ItemList<SetName>,
    /// Their faults, each once, in the order in which they first appear.
    pub faults: ItemList<PackFault>,
    /// How many sets have a text that can not be read, so that names, arguments and calls were not checked.
    pub unread: usize,
    /// How many sets have faults in a phase before the last, so that a phase was not reached. The unread ones are among them.
    pub unreached: usize,
}
