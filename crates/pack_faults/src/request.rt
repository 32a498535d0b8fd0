//! What is requested of a pack, the names of a set, and why there is none.
use dap_base::{NameText, OutOfMemory};

/// Whose sets are requested of a pack. What is `None` is requested of all.
#[derive(Debug, Drop)]
pub struct PackRequest {
    /// The name of a device; of several with that name, each is meant.
    pub device: Option<NameText>,
    /// The name of a variant. Then a device itself, without a variant, is not meant.
    pub variant: Option<NameText>,
    /// The name of a processor.
    pub pname: Option<NameText>,
}

/// Whose sequences a set has.
#[derive(Debug, Drop)]
pub struct SetName {
    /// The device.
    pub device: NameText,
    /// A variant of it, or none.
    pub variant: Option<NameText>,
    /// A processor, or none where no sequence along the path to the device or variant has a `Pname`.
    pub pname: Option<NameText>,
}

/// Why a pack has no set that is requested.
#[derive(Clone, Copy, Debug, PartialEq, Eq)]
pub enum PackRefusal {
    /// No device of the pack has the name.
    NoDevice,
    /// None of the devices that are requested has a variant of the name.
    NoVariant,
    /// No sequence along the paths to the devices and variants that are requested has the `Pname`.
    NoPname,
    /// Memory was refused.
    OutOfMemory,
}

impl From<OutOfMemory> for PackRefusal {
    ghost use Rattle.std.specs.Prelude.{◌≡◌};
    ghost use Rattle.pack_faults.specs.declared.request.PackRefusal.TheVariants as refusals;

    ghost from_gives = { λ _ refusal. refusal ≡ refusals.OutOfMemory };

    fn from(_refused: OutOfMemory) -> PackRefusal {
        PackRefusal::OutOfMemory
    }
}
