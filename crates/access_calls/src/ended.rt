//! How a run of calls ends.
ghost use Rattle.std.specs.Prelude.{◌≡◌};

use crate::{Report, Stop};
use target_machine::{HaltCause, Variables};

/// How a run ended.
#[derive(Clone, Copy, Debug, PartialEq, Eq)]
pub enum Ending {
    /// It came to its end.
    Done,
    /// A rule of the sequences halted it.
    Halted(HaltCause),
    /// The target or the probe stopped it.
    Cut(Report),
    /// The bench failed.
    BenchFault {
        /// How many entries of the journal were issued, as `Stop::BenchFault` counts them.
        issued: u32,
        /// How many of them lie in flights, polls and commands whose replies were all received.
        confirmed: u32,
    },
    /// The bench answered with a reply that its packet cannot have.
    ReplyBad,
    /// The sink failed at a line of the run.
    WriteFault,
    /// Memory was requested and refused.
    OutOfMemory,
}

/// How a run ends that its access stopped, or whose access did not begin.
impl From<Stop> for Ending {
    ghost use Rattle.access_calls.specs.Endings.{ending_of};

    ghost from_gives = { λ stop ending. ending ≡ ending_of stop };

    fn from(stop: Stop) -> Ending {
        match stop {
            Stop::Cut(report) => Ending::Cut(report),
            Stop::BenchFault { issued, confirmed } => Ending::BenchFault { issued, confirmed },
            Stop::ReplyBad => Ending::ReplyBad,
            Stop::OutOfMemory => Ending::OutOfMemory,
        }
    }
}

/// A run that has ended.
#[derive(Debug, Drop)]
pub struct Ended {
    /// How it ended.
    pub ending: Ending,
    /// How many units were asked, at most 1,000,000 of a sequence, and those of what follows it besides. After `Done` and `Halted` they are
    /// all of them, else those before the call at which the run was left.
    pub units: u32,
    /// How many of them were skipped: they forgive a fault, and met one.
    pub skipped: u32,
    /// After `Done` and `Halted` the variables in their order, each with its value; else none.
    pub variables: Variables,
}
