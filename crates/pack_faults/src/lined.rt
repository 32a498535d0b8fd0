//! What was found in each known set, each fault with its line.
ghost use Rattle.std.specs.Prelude.{◌≡◌, IfOk, map};
ghost use Rattle.std.specs.List.{All, IsDistinct};
ghost use Rattle.std.specs.Str.{bytes_eq};
ghost use Rattle.pack_faults.specs.Answers.{found_in};
ghost use Rattle.pack_faults.specs.Known.{IsKnown};
ghost use Rattle.pack_faults.specs.Lined.{lined_view, checked_view, checked_of};

use crate::known::KnownSet;
use dap_base::{ItemList, OutOfMemory};
use sequence_resolve::SeqSet;
use set_faults::{Fault, Phase};
use set_lines::Lines;
use std::alloc::Global;

/// A fault of a set and its line, lent.
#[derive(Clone, Copy)]
pub struct LinedFault<'k> {
    pub fault: &'k Fault,
    pub line: Option<&'k str>,
}

/// The phase that the check of a set reached, and the faults of the set.
#[derive(Drop)]
pub struct LinedSet<'k> {
    pub phase: Phase,
    pub faults: ItemList<LinedFault<'k>>,
}

// These faults of a set, each with its line.
fn lined_faults<'k>(
    alloc: Global,
    set: &'k SeqSet,
    faults: &'k [Fault],
) -> Result<ItemList<LinedFault<'k>>, OutOfMemory>
    requires { IsDistinct bytes_eq (map (λ e. e.name) set.now.entries) }
    ensures { IfOk result (λ lined. map lined_view lined ≡ map (found_in set.now) faults.now) }
{
    let mut lines = Lines::new(set);
    let mut lined = ItemList::new(alloc);
    for fault in faults {
        let line = lines.line_of(&fault.spot);
        lined.push(LinedFault { fault, line })?;
    }
    Ok(lined)
}

fn lined_set<'k>(alloc: Global, known: &'k KnownSet) -> Result<LinedSet<'k>, OutOfMemory>
    requires { IsKnown known.now }
    ensures { IfOk result (λ lined. checked_view lined ≡ checked_of known.now) }
{
    let faults = lined_faults(alloc, &known.set, known.found.faults.as_slice())?;
    Ok(LinedSet {
        phase: known.found.phase,
        faults,
    })
}

/// What was found in each of these sets. The line of each fault is sought once, for all devices, variants and processors that have
/// the set.
pub fn lined_sets<'k>(
    alloc: Global,
    known: &'k [KnownSet],
) -> Result<ItemList<LinedSet<'k>>, OutOfMemory>
    requires { All IsKnown known.now }
    ensures { IfOk result (λ sets. map checked_view sets ≡ map checked_of known.now) }
{
    let mut sets = ItemList::with_room(alloc, known.len())?;
    for one in known {
        sets.push(lined_set(alloc, one)?)?;
    }
    Ok(sets)
}
