//! How a call ends.
ghost use Rattle.std.specs.Prelude.{◌≡◌};
ghost use Rattle.target_calls.specs.World.{is_faulted};
ghost use Rattle.direct_calls.specs.Made.{call_end_of, end_by};

use target_machine::Outcome;

/// How a call ends.
#[derive(Clone, Copy, Debug, PartialEq, Eq)]
pub enum Made {
    /// With this result; 0 where it has none, as a write.
    Answered(u32),
    /// At a fault that it forgives.
    Skipped,
    /// At a fault.
    Faulted,
    /// Its address is over 0xFFFFFFFF, and its access port has no large addresses.
    Small,
}

// How an access ends by what its last register access answered.
pub(crate) fn made_of(outcome: Outcome) -> Made
    ensures { call_end_of result ≡ end_by outcome }
{
    match outcome {
        Outcome::Value(value) => Made::Answered(value),
        Outcome::Done => Made::Answered(0),
        Outcome::Fault => Made::Faulted,
    }
}

// The access met a fault.
pub(crate) fn met_fault(made: Made) -> bool
    ensures { result ≡ is_faulted (call_end_of made) }
{
    match made {
        Made::Faulted => true,
        Made::Answered(_) | Made::Skipped | Made::Small => false,
    }
}
