//! How a scan ends that has no good end.
use access_calls::Stop;

/// Why a scan has no good end.
#[derive(Clone, Copy, Debug, PartialEq, Eq)]
pub enum ScanEnd {
    /// There are more than 1,024 components. The first 1,024 have their lines.
    Full,
    /// The sink failed. A part of the lines was written.
    WriteFault,
    /// The access stopped, or memory was refused.
    Stop(Stop),
}
