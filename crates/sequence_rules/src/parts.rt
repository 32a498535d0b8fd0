//! The variables of a sequence, and where they lie.
ghost use Rattle.std.specs.Prelude.{◌≤◌, ◌^◌, length};
ghost use Rattle.sequence_rules.specs.Shared.{joined_locals};

use crate::bindings::Binding;
use crate::globals::Globals;

/// The variables that a running sequence declared, the newest last. The first sixteen are sought one by one. Each one after them is found
/// by its name without going through the others, up to the first that hides another one. From that one on they are sought one by one again.
/// In a checked set none hides another one. Contracts see them by `locals_of`, as the plain list of this crate's specs.
#[derive(Drop)]
pub struct Locals<V> {
    pub(crate) first: Vec<Binding<V>>,
    pub(crate) named: Globals<V>,
    pub(crate) hiding: Vec<Binding<V>>,
    ghost bounded: { length (joined_locals first.items named hiding.items) ≤ 2 ^ 32 },
}
