//! The journal of what is issued for calls.

/// What an entry of a journal is to its unit.
#[derive(Clone, Copy, Debug, PartialEq, Eq)]
pub enum Part {
    /// It settles: it writes CSW or TAR as plain units leave them, after units that left them otherwise.
    Settles,
    /// It leads to the access that the unit is for.
    Leads,
    /// It is the access, poll or probe command that the unit is for.
    Ends,
    /// It is the write of ABORT after a fault that is forgiven. Where the fault came before the
    /// access that the unit is for, the unit counts as attempted from here on.
    Skips { attempted: bool },
}
