//! Calls that are asked, the places of their results, and values that may not have come.
use target_machine::Call;

/// One call that was asked.
#[derive(Clone, Copy, Debug, PartialEq, Eq)]
pub struct Ask {
    /// An access or a probe command.
    pub call: Call,
    /// Whether a fault of the target is forgiven. It counts for memory and AP accesses alone.
    pub forgive: bool,
    /// Whether a `finish` was made after it and before the next call.
    pub settled: bool,
}

/// The place of a call's result, which may not have come. Calls are numbered from 0.
#[derive(Clone, Copy, Debug, PartialEq, Eq)]
pub struct Slot {
    pub index: u32,
}

/// What is answered when an access is asked.
#[derive(Clone, Copy, Debug, PartialEq, Eq)]
pub enum Asked {
    /// The place of its result.
    Slot(Slot),
    /// The address is over 0xFFFFFFFF, and the access port has no large addresses.
    Small,
}

/// A number, or the place of a result that may not have come.
#[derive(Clone, Copy, Debug, PartialEq, Eq)]
pub enum Value {
    Number(u64),
    Pending(Slot),
}
