//! Why a pack has no set of sequences for a device.
use dap_base::OutOfMemory;
use thiserror::Error;

/// Why a pack has no set of sequences for what is requested.
#[derive(Debug, Drop, Error)]
pub enum ResolveFault {
    /// No device of the pack has the name.
    #[error("no device of the pack has the name")]
    NoDevice,
    /// Two or more devices of the pack have the name.
    #[error("several devices of the pack have the name")]
    AmbiguousDevice,
    /// The device has no variant of the name.
    #[error("the device has no variant of the name")]
    NoVariant,
    /// Memory was refused.
    #[error("out of memory")]
    OutOfMemory,
}

impl From<OutOfMemory> for ResolveFault {
    ghost use Rattle.std.specs.Prelude.{◌≡◌};
    ghost use Rattle.sequence_resolve.specs.declared.fault.ResolveFault.TheVariants as faults;

    ghost from_gives = { λ _ fault. fault ≡ faults.OutOfMemory };

    fn from(_refused: OutOfMemory) -> ResolveFault {
        ResolveFault::OutOfMemory
    }
}
