//! Names and their values, and why a text has none.

use dap_base::{ItemList, OutOfMemory, Place};
use expr_grammar::Name;

/// A name and its value.
#[derive(Debug, Drop)]
pub struct ConfItem {
    /// The name, with its place in the text.
    pub name: Name,
    /// The value.
    pub value: u64,
}

/// Names and their values, in the order of the text.
pub type Conf = ItemList<ConfItem>;

/// Why a text is no list of names and values.
#[derive(Clone, Copy, Debug, PartialEq, Eq)]
pub enum ConfFault {
    /// The first place from which no token, blank or comment can be taken.
    BadToken(Place),
    /// The first token such that no such text begins with the tokens up to it; where the end is missing, the place just past the last
    /// token.
    Unexpected(Place),
    /// The first name that stands before.
    Repeated(Place),
    /// Memory was refused.
    OutOfMemory,
}

impl From<OutOfMemory> for ConfFault {
    ghost use Rattle.std.specs.Prelude.{◌≡◌};
    ghost use Rattle.dbgconf_text.specs.declared.conf.ConfFault.TheVariants as faults;

    ghost from_gives = { λ _ e. e ≡ faults.OutOfMemory };

    fn from(_: OutOfMemory) -> ConfFault {
        ConfFault::OutOfMemory
    }
}
