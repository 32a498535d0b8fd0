//! What code sees.
use crate::names::Names;

/// What code sees: the visible variables, the sequences of the set, and whether it is that of the
/// debug variables.
#[derive(Clone, Copy)]
pub struct Scope<'a> {
    pub visible: &'a Names,
    pub sequences: &'a Names,
    pub in_debugvars: bool,
}
