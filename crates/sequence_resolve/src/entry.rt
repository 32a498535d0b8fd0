//! The set of sequences that apply to a device.
use dap_base::{ItemList, NameText};
use device_tree::SharedSteps;

/// The level of a pack that a sequence comes from.
#[derive(Clone, Copy, Debug, PartialEq, Eq)]
pub enum LevelKind {
    Defaults,
    Family,
    SubFamily,
    Device,
    Variant,
}

/// A sequence that applies.
#[derive(Debug, Drop)]
pub struct SeqEntry {
    /// Its name, which no other entry of the set has.
    pub name: NameText,
    /// The level that it comes from.
    pub from: LevelKind,
    /// Whether it is disabled; then it has no steps.
    pub disabled: bool,
    /// Its steps, which are those of the pack.
    pub steps: SharedSteps,
}

/// The sequences of a set, in the order in which their names first appear along the levels.
pub type SeqEntries = ItemList<SeqEntry>;

/// The sequences that apply to a device, and the code of its debug variables.
#[derive(Debug, Drop)]
pub struct SeqSet {
    pub entries: SeqEntries,
    /// The `debugvars` of the deepest level that has that element, or an empty text.
    pub debugvars: NameText,
}
