//! Why nothing was read.

ghost use Rattle.std.specs.Prelude.{◌≡◌};
ghost use Rattle.expr_grammar.specs.declared.fault.Fault.TheVariants.{Memory};

use dap_base::OutOfMemory;

/// Why nothing was read.
#[derive(Clone, Copy, Debug, PartialEq, Eq)]
pub enum Fault {
    /// Memory was refused.
    Memory,
    /// The token that has this many tokens from it on, or the end.
    Unexpected(usize),
}

impl From<OutOfMemory> for Fault {
    ghost from_gives = { λ _ e. e ≡ Memory };

    fn from(_: OutOfMemory) -> Fault {
        Fault::Memory
    }
}
