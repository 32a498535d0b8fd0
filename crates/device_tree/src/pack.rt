//! A pack: its levels and the sequences of each.
use crate::shared::SharedSteps;
use dap_base::{ItemList, NameText};

/// A debug access sequence as one level has it: the element `sequence` of the Open-CMSIS-Pack
/// debug description.
#[derive(Debug, Drop)]
pub struct SeqText {
    /// `name`.
    pub name: NameText,
    /// `Pname`: the processor that the sequence is for. Without it, it is for each.
    pub pname: Option<NameText>,
    /// `disable`: whether the sequence has no effect.
    pub disable: bool,
    /// The blocks and controls in order.
    pub steps: SharedSteps,
}

/// The sequences of a level, in order, no two of one name and one `Pname`.
pub type SeqTexts = ItemList<SeqText>;

/// What each level of a pack may hold.
#[derive(Debug, Drop)]
pub struct Level {
    /// The code of the element `debugvars`, where the level has one.
    pub debugvars: Option<NameText>,
    /// The sequences.
    pub sequences: SeqTexts,
}

/// A device's variant.
#[derive(Debug, Drop)]
pub struct Variant {
    /// `Dvariant`.
    pub name: NameText,
    pub level: Level,
}

/// The variants of a device, no two of one name.
pub type Variants = ItemList<Variant>;

/// A device.
#[derive(Debug, Drop)]
pub struct Device {
    /// `Dname`.
    pub name: NameText,
    pub level: Level,
    pub variants: Variants,
}

/// Devices, of which several may have one name.
pub type Devices = ItemList<Device>;

/// A subfamily of devices.
#[derive(Debug, Drop)]
pub struct SubFamily {
    /// `DsubFamily`.
    pub name: NameText,
    pub level: Level,
    pub devices: Devices,
}

/// The subfamilies of a family.
pub type SubFamilies = ItemList<SubFamily>;

/// A family of devices.
#[derive(Debug, Drop)]
pub struct Family {
    /// `Dfamily`.
    pub name: NameText,
    pub level: Level,
    pub sub_families: SubFamilies,
    /// The devices that stand in no subfamily.
    pub devices: Devices,
}

/// The families of a pack.
pub type Families = ItemList<Family>;

/// A pack: the level above all families, and the families.
#[derive(Debug, Drop)]
pub struct Pack {
    /// The level above the families, where the pack has one.
    pub defaults: Option<Level>,
    pub families: Families,
}
