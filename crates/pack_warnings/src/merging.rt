//! The warnings of one set after another, each once.
ghost use Rattle.std.specs.Prelude.{◌≡◌, ◌<◌, ◌∷◌, ◌++◌, [], None, Some, IfOk, OnOk, option_map, map, length, if◌then◌else◌};
ghost use Rattle.std.specs.Ordering.{is_eq};
ghost use Rattle.std.specs.BTreeMap.{get};
ghost use Rattle.pack_faults.specs.Steps.{numbers_with};
ghost use Rattle.pack_warnings.specs.declared.answer.PackWarning.{PackWarning};
ghost use Rattle.pack_warnings.specs.declared.keys.WarningKey.{WarningKey};
ghost use Rattle.pack_warnings.specs.Keys.{warning_key_cmp, warning_key_view, warning_found_view, warning_noted_at, KnowsWarningPlaces};
ghost use Rattle.pack_warnings.specs.Lined.{lined_warning_view};
ghost use Rattle.pack_warnings.specs.Merged.{with_warning, with_each_warning};

use crate::answer::{FoundWarning, PackWarning};
use crate::keys::{WarningKey, key_of};
use crate::lined::LinedWarning;
use dap_base::{ItemList, OutOfMemory};
use pack_faults::copy_of;
use sequence_trees::{Spot, copy_path};
use set_lines::name_of;
use set_warnings::Warning;
use std::alloc::Global;
use std::collections::BTreeMap;

/// Warnings that were found, each once, and the place of each in the list.
#[derive(Drop)]
pub struct Warnings<'k> {
    pub list: Vec<PackWarning>,
    pub places: BTreeMap<WarningKey<'k>, usize>,
}

impl<'k> Warnings<'k> {
    /// No warnings.
    pub fn new(alloc: Global) -> Warnings<'k>
        ensures list { result.list.items ≡ [] }
        ensures knows { KnowsWarningPlaces result.places result.list.items }
    {
        Warnings {
            list: Vec::new(alloc),
            places: BTreeMap::new(alloc),
        }
    }
}

fn copy_warning(alloc: Global, warning: &Warning) -> Result<Warning, OutOfMemory>
    ensures { IfOk result (λ copy. copy ≡ warning.now) }
{
    let spot = Spot {
        sequence: copy_of(alloc, name_of(&warning.spot.sequence))?,
        path: copy_path(alloc, warning.spot.path.as_slice())?,
        part: warning.spot.part,
        place: warning.spot.place,
    };
    Ok(Warning {
        kind: warning.kind,
        spot,
        name: copy_of(alloc, name_of(&warning.name))?,
    })
}

// Adds the number of a set unless it is the last.
fn note(sets: &mut ItemList<usize>, number: usize) -> Result<(), OutOfMemory>
    ensures { OnOk result (sets.new ≡ numbers_with number sets.old) }
{
    match sets.as_slice().last() {
        Some(last) if *last == number => Ok(()),
        _ => sets.push(number),
    }
}

// Adds the number of a set at this place of the list.
fn note_at(list: &mut Vec<PackWarning>, place: usize, number: usize) -> Result<(), OutOfMemory>
    requires { place < length list.old.items }
    ensures { OnOk result ((other : PackWarning) → list.new.items ≡ warning_noted_at number list.old.items place other) }
{
    note(&mut list[place].sets, number)
}

fn place_of<'k>(places: &BTreeMap<WarningKey<'k>, usize>, key: &WarningKey<'k>) -> Option<usize>
    ensures { result ≡ get warning_key_cmp places.now key.now }
{
    places.get(key).copied()
}

// Notes the place of a key.
fn note_place<'k>(
    places: &mut BTreeMap<WarningKey<'k>, usize>,
    key: WarningKey<'k>,
    place: usize,
) -> Result<(), OutOfMemory>
    ensures { OnOk result ((other : WarningKey) → get warning_key_cmp places.new other
        ≡ (if is_eq (warning_key_cmp key.entry other) then Some place else get warning_key_cmp places.old other)) }
{
    if places.insert(key, place).is_err() {
        return Err(OutOfMemory);
    }
    Ok(())
}

// Adds the first of its kind to the list.
fn push_found(
    alloc: Global,
    warning: &Warning,
    line: Option<&str>,
    number: usize,
    list: &mut Vec<PackWarning>,
) -> Result<(), OutOfMemory>
    ensures { OnOk result (list.new.items ≡ list.old.items
        ++ record { found = record { warning = warning.now; line = option_map (λ w. w.now) line.entry }; sets = number ∷ [] } ∷ []) }
{
    let found = FoundWarning {
        warning: copy_warning(alloc, warning)?,
        line: copy_of(alloc, line)?,
    };
    let mut sets = ItemList::new(alloc);
    sets.push(number)?;
    list.push(PackWarning { found, sets })
        .map_err(|_| OutOfMemory)
}

// Adds the first of its kind, which has this key.
fn add_first<'k>(
    alloc: Global,
    warning: &'k Warning,
    line: Option<&'k str>,
    key: WarningKey<'k>,
    number: usize,
    warnings: &mut Warnings<'k>,
) -> Result<(), OutOfMemory>
    requires key { warning_key_view key ≡ warning_found_view (record { warning = warning.now; line = option_map (λ w. w.now) line }) }
    requires first { get warning_key_cmp warnings.old.places key ≡ None }
    requires knows { KnowsWarningPlaces warnings.old.places warnings.old.list.items }
    ensures list { OnOk result (warnings.new.list.items
        ≡ with_warning number (record { warning = warning.now; line = option_map (λ w. w.now) line.entry }) warnings.old.list.items) }
    ensures knows { OnOk result (KnowsWarningPlaces warnings.new.places warnings.new.list.items) }
{
    let place = warnings.list.len();
    note_place(&mut warnings.places, key, place)?;
    push_found(alloc, warning, line, number, &mut warnings.list)
}

// Adds a warning of the set with this number.
fn add_found<'k>(
    alloc: Global,
    warning: &'k Warning,
    line: Option<&'k str>,
    number: usize,
    warnings: &mut Warnings<'k>,
) -> Result<(), OutOfMemory>
    requires { KnowsWarningPlaces warnings.old.places warnings.old.list.items }
    ensures list { OnOk result (warnings.new.list.items
        ≡ with_warning number (record { warning = warning.now; line = option_map (λ w. w.now) line.entry }) warnings.old.list.items) }
    ensures knows { OnOk result (KnowsWarningPlaces warnings.new.places warnings.new.list.items) }
{
    let key = key_of(warning, line);
    match place_of(&warnings.places, &key) {
        Some(place) => note_at(&mut warnings.list, place, number),
        None => add_first(alloc, warning, line, key, number, warnings),
    }
}

/// Adds the warnings of the set with this number.
pub fn add_warnings<'k>(
    alloc: Global,
    found: &[LinedWarning<'k>],
    number: usize,
    warnings: &mut Warnings<'k>,
) -> Result<(), OutOfMemory>
    requires { KnowsWarningPlaces warnings.old.places warnings.old.list.items }
    ensures list { OnOk result (warnings.new.list.items ≡ with_each_warning number (map lined_warning_view found.now) warnings.old.list.items) }
    ensures knows { OnOk result (KnowsWarningPlaces warnings.new.places warnings.new.list.items) }
{
    for one in found {
        add_found(alloc, one.warning, one.line, number, warnings)?;
    }
    Ok(())
}

/// The warnings as a list.
pub fn list_of(alloc: Global, warnings: Warnings) -> Result<ItemList<PackWarning>, OutOfMemory>
    ensures { IfOk result (λ list. list ≡ warnings.entry.list.items) }
{
    let found = warnings.list;
    let mut list = ItemList::with_room(alloc, found.len())?;
    for warning in found {
        list.push(warning)?;
    }
    Ok(list)
}
