//! What a logged run holds.
use direct_calls::CallList;
use log_lines::EventLog;
use sequence_rules::{Globals, Locals};
use target_machine::{HaltCause, Unit};

/// A run goes no further; [`Held::end`] says why.
#[derive(Clone, Copy, Debug, PartialEq, Eq)]
pub struct Stopped;

/// Why a logged run goes no further.
#[derive(Clone, Copy, Debug, PartialEq, Eq)]
pub enum LoggedEnd {
    /// It halts.
    Halted(HaltCause),
    /// Its last access met a fault that it does not forgive.
    Faulted(Unit),
    /// Memory was refused.
    OutOfMemory,
}

/// The variables, the counts, the calls that were made, the access ports that are known to have large addresses, and the log, which refers to the
/// set.
#[derive(Drop)]
pub struct Held<'a> {
    pub globals: Globals<u64>,
    pub locals: Locals<u64>,
    pub units: u32,
    pub lines: u32,
    pub steps: u32,
    pub calls: CallList,
    pub large: Vec<u8>,
    pub skipped: u32,
    /// Why the run goes no further. It counts only where the run has stopped.
    pub end: LoggedEnd,
    pub log: EventLog<'a>,
}
