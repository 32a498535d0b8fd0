//! The variables that each debug access sequence has without a declaration.

/// The names of the predefined variables, in their order.
pub const PREDEFINED: [&str; 7] = [
    "__protocol",
    "__connection",
    "__dp",
    "__ap",
    "__traceout",
    "__errorcontrol",
    "__Result",
];
