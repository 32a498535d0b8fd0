//! What is selected of a pack.
use dap_base::NameText;

/// The name of a device of a pack, and those of one of its variants and of one of its processors,
/// where one is selected. Nothing is known of the names; that the pack has them, `effective` finds.
#[derive(Debug, Drop)]
pub struct Selection {
    pub device: NameText,
    pub variant: Option<NameText>,
    pub pname: Option<NameText>,
}
