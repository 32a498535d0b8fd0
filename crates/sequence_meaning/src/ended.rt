//! How a direct run ends.
use direct_calls::CallList;
use target_machine::{HaltCause, Unit, Variables};

/// How a direct run ended.
#[derive(Debug, Drop)]
pub enum Direct {
    /// Its steps are done. The predefined variables, then the debug variables.
    Done(Variables),
    /// It halted, with this cause. The same variables, as they were then: where it halted in a called sequence, the `__dp`,
    /// `__ap` and `__errorcontrol` of that.
    Halted(HaltCause, Variables),
    /// Its last unit, number `unit` from 1, met a fault that it does not forgive.
    Faulted {
        /// The number of the unit, at most 1,000,000.
        unit: u32,
        /// The access.
        what: Unit,
    },
    /// The sink failed.
    WriteFault,
}

/// A direct run with what it made.
#[derive(Debug, Drop)]
pub struct Recorded {
    /// How it ended.
    pub ending: Direct,
    /// The calls that were made, one for each unit, in order.
    pub calls: CallList,
    /// How many of them met a fault that they forgive.
    pub skipped: u32,
}
