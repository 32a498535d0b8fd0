//! Why nothing comes of a row.

use dap_base::OutOfMemory;
use std::alloc::{AllocError, AllocFailed};

/// Why nothing comes of a row.
#[derive(Clone, Copy, Debug, PartialEq, Eq)]
pub enum RowError {
    /// Memory was requested and refused.
    OutOfMemory,
    /// The row is written as none that can be tried.
    Unreadable,
}

impl From<AllocError> for RowError {
    fn from(_: AllocError) -> RowError {
        RowError::OutOfMemory
    }
}

impl From<OutOfMemory> for RowError {
    fn from(_: OutOfMemory) -> RowError {
        RowError::OutOfMemory
    }
}

impl<T: Drop> From<AllocFailed<T>> for RowError {
    fn from(_: AllocFailed<T>) -> RowError {
        RowError::OutOfMemory
    }
}
