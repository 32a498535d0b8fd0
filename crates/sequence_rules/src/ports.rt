//! The predefined variables that calls use.

/// The predefined variables that calls use.
#[derive(Clone, Copy, Debug)]
pub struct Port {
    /// The access port, `__ap`.
    pub ap: u64,
    /// Whether a fault is forgiven: bit 0 of `__errorcontrol`.
    pub forgive: bool,
    /// The debug port, `__dp`.
    pub dp: u64,
}
