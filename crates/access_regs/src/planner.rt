//! In which of two ways the accesses of units are planned.

/// How the accesses of memory and AP units come about. Every other call is one access, poll or command of its own either
/// way.
#[derive(Clone, Copy, Debug, PartialEq, Eq)]
pub enum Planner {
    /// SELECT, CSW and TAR are written only where the target does not have them already. A unit that forgives a fault is
    /// made alone.
    Managed,
    /// Each unit is made alone: SELECT, CSW and TAR are written each time, whatever earlier units left. Only which ports
    /// have large addresses counts from one unit to the next.
    Plain,
}
