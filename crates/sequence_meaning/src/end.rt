//! Why a run goes no further.
use target_machine::{HaltCause, Unit};

// A run goes no further; `Held::end` says why. The reason lies there, so that the answer of each call is small.
#[derive(Clone, Copy, Debug, PartialEq, Eq)]
pub(crate) struct Stopped;

// Why a run goes no further.
#[derive(Clone, Copy, Debug, PartialEq, Eq)]
pub(crate) enum DirectEnd {
    /// It halts.
    Halted(HaltCause),
    /// Its last access met a fault that it does not forgive.
    Faulted(Unit),
    /// The sink failed.
    WriteFault,
    /// Memory was refused.
    OutOfMemory,
}
