//! Why a call does not know what it is asked for.

/// Why it is not known what is asked for.
#[derive(Clone, Copy, Debug, PartialEq, Eq)]
pub enum Unasked {
    /// The source failed.
    ReadFault,
    /// Memory was refused.
    OutOfMemory,
}
