//! Sets that were checked, so that an equal one is not checked again.
ghost use Rattle.std.specs.Prelude.{◌≡◌, ◌-◌, ◌+◌, ◌<◌, IfOk, IfSome, position, drop, length, map, option_map};
ghost use Rattle.std.specs.List.{IsDistinct};
ghost use Rattle.std.specs.Str.{bytes_eq};
ghost use Rattle.pack_faults.specs.Equal.{same_set};
ghost use Rattle.pack_faults.specs.Known.{IsKnown};

use crate::equal::same_set;
use dap_base::OutOfMemory;
use sequence_resolve::SeqSet;
use set_faults::{SetFaults, all_faults};
use std::alloc::Global;

/// A set, and all its faults.
#[derive(Drop)]
pub struct KnownSet {
    pub set: SeqSet,
    pub found: SetFaults,
}

/// Checks a set.
pub fn check_new(alloc: Global, set: SeqSet) -> Result<KnownSet, OutOfMemory>
    requires { IsDistinct bytes_eq (map (λ e. e.name) set.entries) }
    ensures set { IfOk result (λ k. k.set ≡ set) }
    ensures found { IfOk result IsKnown }
{
    let found = all_faults(alloc, &set)?;
    Ok(KnownSet { set, found })
}

// The last eight of these sets.
fn last_eight(known: &[KnownSet]) -> &[KnownSet]
    ensures { result.now ≡ drop (length known.now - 8) known.now }
{
    &known[known.len().saturating_sub(8)..]
}

// Where the first of these sets stands that is equal.
fn first_equal(known: &[KnownSet], set: &SeqSet) -> Option<usize>
    ensures place { result ≡ position (λ k. same_set set.now k.set) known.now }
    ensures within { IfSome result (λ place. place < length known.now) }
{
    known.iter().position(|one| same_set(set, &one.set))
}

/// Where the first of the last eight of these sets stands that is equal. Sets that are alike mostly come soon after one another: the
/// processors and variants of a device, and the devices of a family.
pub fn known_equal(known: &[KnownSet], set: &SeqSet) -> Option<usize>
    ensures { result ≡ option_map (λ place. length known.now - 8 + place) (position (λ k. same_set set.now k.set) (drop (length known.now - 8) known.now)) }
{
    let place = first_equal(last_eight(known), set)?;
    Some(known.len().saturating_sub(8) + place)
}
