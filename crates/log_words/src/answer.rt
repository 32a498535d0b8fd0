//! What the words ask for.
use dap_base::NameText;
use sequence_resolve::Selection;

/// What the words ask for.
#[derive(Debug, Drop)]
pub struct LogCommand {
    /// The names after `--device`, `--variant` and `--pname`.
    pub selection: Selection,
    /// The name after `--sequence`.
    pub sequence: NameText,
    /// How many turns of a loop are shown besides the last one, at most 1,000,000.
    pub turns: u32,
    /// Whether `--fail` is given.
    pub fail: bool,
}
