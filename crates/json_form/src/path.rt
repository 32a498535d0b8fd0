//! Where in a value a fault is.
use dap_base::{ItemList, NameText};

/// One step into a value.
#[derive(Debug, Drop)]
pub enum PathStep {
    /// The member of an object with this name.
    Key(NameText),
    /// The item of a list with this number, from 0.
    Index(u64),
}

/// The steps from the whole value to the place of a fault, from the outermost in.
pub type Path = ItemList<PathStep>;
