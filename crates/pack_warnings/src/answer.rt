//! The warnings of a pack.
use dap_base::{ItemList, NameText};
use set_warnings::Warning;

/// A warning, and the line that it stands in.
#[derive(Debug, Drop)]
pub struct FoundWarning {
    pub warning: Warning,
    /// The line of the text at the place of the warning, without its line feed. None for one of a control or a sequence itself.
    pub line: Option<NameText>,
}

/// A warning of a pack: the same wherever kind, spot, name and line are the same.
#[derive(Debug, Drop)]
pub struct PackWarning {
    pub found: FoundWarning,
    /// The sets that have it, by their places among the sets that are requested, from 0 on, rising.
    pub sets: ItemList<usize>,
}
