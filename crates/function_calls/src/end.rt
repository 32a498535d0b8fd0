//! Why a run goes no further.
ghost use Rattle.std.specs.Prelude.{◌≡◌};

use access_calls::Stop;
use target_machine::HaltCause;

/// Why a run goes no further.
#[derive(Clone, Copy, Debug, PartialEq, Eq)]
pub enum End {
    /// It halts, with this cause.
    Halted(HaltCause),
    /// The access has ended. It keeps its end, and answers it from then on.
    Stopped,
    /// Memory was refused, to the run or to its access. The access goes on.
    OutOfMemory,
    /// The sink failed.
    WriteFault,
}

/// How a run ends at this answer of its access.
impl From<Stop> for End {
    ghost use Rattle.function_calls.specs.Stops.{end_at_stop};

    ghost from_gives = { λ stop end. end ≡ end_at_stop stop };

    fn from(stop: Stop) -> End {
        match stop {
            Stop::Cut(_) | Stop::BenchFault { .. } | Stop::ReplyBad => End::Stopped,
            Stop::OutOfMemory => End::OutOfMemory,
        }
    }
}
