//! The limits of a run. The definitions write them out.

/// How many units a run asks at most.
pub const MOST_UNITS: u32 = 1_000_000;

/// How many lines its sequences write at most.
pub const MOST_LINES: u32 = 100_000;

/// How many steps it makes at most.
pub const MOST_STEPS: u32 = 100_000_000;

/// How many calls a chain of sequences has at most after the sequence that the run starts with.
pub const MOST_CALLS_DEEP: u32 = 31;
