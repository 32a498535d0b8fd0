//! How a flight ends that does not come to its end.

/// Where a flight was cut.
#[derive(Clone, Copy, Debug, PartialEq, Eq)]
pub struct Cut {
    /// How many of its accesses were performed: exactly the first so many.
    pub performed: u32,
    /// How many of these are known to have been good: all of them, or all but the last.
    pub confirmed: u32,
    /// The transfer response: 0x02, a transfer was answered WAIT too often, or 0x04, FAULT.
    pub response: u8,
}

/// Why a flight ended.
#[derive(Clone, Copy, Debug, PartialEq, Eq)]
pub enum FlightEnd {
    /// A transfer was answered WAIT too often, or FAULT.
    Cut(Cut),
    /// A call of the bench failed.
    BenchFault,
    /// A reply is none that its packet may get.
    ReplyBad,
}
