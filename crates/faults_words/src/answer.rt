//! What the words ask for.
use crate::format::Format;
use dap_base::NameText;

/// What the words ask for.
#[derive(Debug, Drop)]
pub struct FaultsCommand {
    /// The name after `--device`, where there is one.
    pub device: Option<NameText>,
    /// The name after `--variant`.
    pub variant: Option<NameText>,
    /// The name after `--pname`.
    pub pname: Option<NameText>,
    /// How the faults are written.
    pub format: Format,
    /// Whether the warnings of valid sets are written too.
    pub warnings: bool,
}
