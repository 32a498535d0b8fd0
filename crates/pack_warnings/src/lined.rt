//! The warnings of each known set, each with its line.
ghost use Rattle.std.specs.Prelude.{◌≡◌, IfOk, map};
ghost use Rattle.std.specs.List.{All, IsDistinct};
ghost use Rattle.std.specs.Str.{bytes_eq};
ghost use Rattle.pack_faults.specs.Known.{IsKnown};
ghost use Rattle.pack_warnings.specs.Answers.{warning_found_in};
ghost use Rattle.pack_warnings.specs.Lined.{IsWarned, found_of, lined_warning_view, lined_set_view};

use dap_base::{ItemList, OutOfMemory};
use pack_faults::KnownSet;
use sequence_resolve::SeqSet;
use set_lines::Lines;
use set_warnings::{Warning, set_warnings};
use std::alloc::Global;

/// A set and all its warnings.
#[derive(Drop)]
pub struct WarnedSet<'k> {
    pub set: &'k SeqSet,
    pub warnings: ItemList<Warning>,
}

/// A warning of a set and its line, lent.
#[derive(Clone, Copy)]
pub struct LinedWarning<'w> {
    pub warning: &'w Warning,
    pub line: Option<&'w str>,
}

/// The warnings of a set.
#[derive(Drop)]
pub struct LinedWarnings<'w> {
    pub warnings: ItemList<LinedWarning<'w>>,
}

fn warned_set<'k>(alloc: Global, known: &'k KnownSet) -> Result<WarnedSet<'k>, OutOfMemory>
    requires { IsKnown known.now }
    ensures set { IfOk result (λ warned. warned.set.now ≡ known.now.set) }
    ensures warned { IfOk result IsWarned }
{
    let warnings = set_warnings(alloc, &known.set)?;
    Ok(WarnedSet {
        set: &known.set,
        warnings,
    })
}

/// These sets, each with its warnings, which are found once for all devices, variants and processors that have the set.
pub fn warned_sets<'k>(
    alloc: Global,
    known: &'k [KnownSet],
) -> Result<ItemList<WarnedSet<'k>>, OutOfMemory>
    requires { All IsKnown known.now }
    ensures sets { IfOk result (λ sets. map (λ s. s.set.now) sets ≡ map (λ k. k.set) known.now) }
    ensures warned { IfOk result (All IsWarned) }
{
    let mut sets = ItemList::with_room(alloc, known.len())?;
    for one in known {
        sets.push(warned_set(alloc, one)?)?;
    }
    Ok(sets)
}

// These warnings of a set, each with its line.
fn lined_warnings<'w>(
    alloc: Global,
    set: &'w SeqSet,
    warnings: &'w [Warning],
) -> Result<ItemList<LinedWarning<'w>>, OutOfMemory>
    requires { IsDistinct bytes_eq (map (λ e. e.name) set.now.entries) }
    ensures { IfOk result (λ lined. map lined_warning_view lined ≡ map (warning_found_in set.now) warnings.now) }
{
    let mut lines = Lines::new(set);
    let mut lined = ItemList::new(alloc);
    for warning in warnings {
        let line = lines.line_of(&warning.spot);
        lined.push(LinedWarning { warning, line })?;
    }
    Ok(lined)
}

fn lined_set<'w>(alloc: Global, warned: &'w WarnedSet) -> Result<LinedWarnings<'w>, OutOfMemory>
    requires { IsWarned warned.now }
    ensures { IfOk result (λ lined. lined_set_view lined ≡ found_of warned.now) }
{
    let warnings = lined_warnings(alloc, warned.set, warned.warnings.as_slice())?;
    Ok(LinedWarnings { warnings })
}

/// The warnings of each of these sets, with their lines.
pub fn lined_sets<'w>(
    alloc: Global,
    warned: &'w [WarnedSet],
) -> Result<ItemList<LinedWarnings<'w>>, OutOfMemory>
    requires { All IsWarned warned.now }
    ensures { IfOk result (λ sets. map lined_set_view sets ≡ map found_of warned.now) }
{
    let mut sets = ItemList::with_room(alloc, warned.len())?;
    for one in warned {
        sets.push(lined_set(alloc, one)?)?;
    }
    Ok(sets)
}
