//! What is found in one set after another, each once.
ghost use Rattle.std.specs.Prelude.{◌≡◌, ◌<◌, ◌∷◌, ◌++◌, [], None, Some, IfOk, OnOk, option_map, map, length, if◌then◌else◌};
ghost use Rattle.std.specs.Ordering.{is_eq};
ghost use Rattle.std.specs.BTreeMap.{get};
ghost use Rattle.pack_faults.specs.declared.answer.PackFault.{PackFault};
ghost use Rattle.pack_faults.specs.declared.keys.FoundKey.{FoundKey};
ghost use Rattle.pack_faults.specs.Keys.{key_cmp, key_view, found_view, fault_noted_at, KnowsFaultPlaces};
ghost use Rattle.pack_faults.specs.Lined.{lined_view};
ghost use Rattle.pack_faults.specs.Steps.{numbers_with, with_found, with_each};

use crate::answer::{Found, PackFault};
use crate::keys::{FoundKey, key_of};
use crate::lined::LinedFault;
use crate::texts::copy_of;
use dap_base::{ItemList, OutOfMemory};
use sequence_trees::{Spot, copy_path};
use set_faults::Fault;
use set_lines::name_of;
use std::alloc::Global;
use std::collections::BTreeMap;

/// Faults that were found, each once, and the place of each in the list.
#[derive(Drop)]
pub struct Faults<'k> {
    pub list: Vec<PackFault>,
    pub places: BTreeMap<FoundKey<'k>, usize>,
}

impl<'k> Faults<'k> {
    /// No faults.
    pub fn new(alloc: Global) -> Faults<'k>
        ensures list { result.list.items ≡ [] }
        ensures knows { KnowsFaultPlaces result.places result.list.items }
    {
        Faults {
            list: Vec::new(alloc),
            places: BTreeMap::new(alloc),
        }
    }
}

fn copy_fault(alloc: Global, fault: &Fault) -> Result<Fault, OutOfMemory>
    ensures { IfOk result (λ copy. copy ≡ fault.now) }
{
    let spot = Spot {
        sequence: copy_of(alloc, name_of(&fault.spot.sequence))?,
        path: copy_path(alloc, fault.spot.path.as_slice())?,
        part: fault.spot.part,
        place: fault.spot.place,
    };
    Ok(Fault {
        kind: fault.kind,
        spot,
    })
}

// Adds the number of a set unless it is the last.
fn note(sets: &mut ItemList<usize>, number: usize) -> Result<(), OutOfMemory>
    ensures { OnOk result (sets.new ≡ numbers_with number sets.old) }
{
    match sets.as_slice().last() {
        Some(last) if *last == number => Ok(()),
        _ => sets.push(number),
    }
}

// Adds the number of a set at this place of the list.
fn note_at(list: &mut Vec<PackFault>, place: usize, number: usize) -> Result<(), OutOfMemory>
    requires { place < length list.old.items }
    ensures { OnOk result ((other : PackFault) → list.new.items ≡ fault_noted_at number list.old.items place other) }
{
    note(&mut list[place].sets, number)
}

fn place_of<'k>(places: &BTreeMap<FoundKey<'k>, usize>, key: &FoundKey<'k>) -> Option<usize>
    ensures { result ≡ get key_cmp places.now key.now }
{
    places.get(key).copied()
}

// Notes the place of a key.
fn note_place<'k>(
    places: &mut BTreeMap<FoundKey<'k>, usize>,
    key: FoundKey<'k>,
    place: usize,
) -> Result<(), OutOfMemory>
    ensures { OnOk result ((other : FoundKey) → get key_cmp places.new other
        ≡ (if is_eq (key_cmp key.entry other) then Some place else get key_cmp places.old other)) }
{
    if places.insert(key, place).is_err() {
        return Err(OutOfMemory);
    }
    Ok(())
}

// Adds the first of its kind to the list.
fn push_found(
    alloc: Global,
    fault: &Fault,
    line: Option<&str>,
    number: usize,
    list: &mut Vec<PackFault>,
) -> Result<(), OutOfMemory>
    ensures { OnOk result (list.new.items ≡ list.old.items
        ++ record { found = record { fault = fault.now; line = option_map (λ w. w.now) line.entry }; sets = number ∷ [] } ∷ []) }
{
    let found = Found {
        fault: copy_fault(alloc, fault)?,
        line: copy_of(alloc, line)?,
    };
    let mut sets = ItemList::new(alloc);
    sets.push(number)?;
    list.push(PackFault { found, sets })
        .map_err(|_| OutOfMemory)
}

// Adds the first of its kind, which has this key.
fn add_first<'k>(
    alloc: Global,
    fault: &'k Fault,
    line: Option<&'k str>,
    key: FoundKey<'k>,
    number: usize,
    faults: &mut Faults<'k>,
) -> Result<(), OutOfMemory>
    requires key { key_view key ≡ found_view (record { fault = fault.now; line = option_map (λ w. w.now) line }) }
    requires first { get key_cmp faults.old.places key ≡ None }
    requires knows { KnowsFaultPlaces faults.old.places faults.old.list.items }
    ensures list { OnOk result (faults.new.list.items
        ≡ with_found number (record { fault = fault.now; line = option_map (λ w. w.now) line.entry }) faults.old.list.items) }
    ensures knows { OnOk result (KnowsFaultPlaces faults.new.places faults.new.list.items) }
{
    let place = faults.list.len();
    note_place(&mut faults.places, key, place)?;
    push_found(alloc, fault, line, number, &mut faults.list)
}

// Adds a fault of the set with this number.
fn add_found<'k>(
    alloc: Global,
    fault: &'k Fault,
    line: Option<&'k str>,
    number: usize,
    faults: &mut Faults<'k>,
) -> Result<(), OutOfMemory>
    requires { KnowsFaultPlaces faults.old.places faults.old.list.items }
    ensures list { OnOk result (faults.new.list.items
        ≡ with_found number (record { fault = fault.now; line = option_map (λ w. w.now) line.entry }) faults.old.list.items) }
    ensures knows { OnOk result (KnowsFaultPlaces faults.new.places faults.new.list.items) }
{
    let key = key_of(fault, line);
    match place_of(&faults.places, &key) {
        Some(place) => note_at(&mut faults.list, place, number),
        None => add_first(alloc, fault, line, key, number, faults),
    }
}

/// Adds the faults of the set with this number.
pub fn add_faults<'k>(
    alloc: Global,
    found: &[LinedFault<'k>],
    number: usize,
    faults: &mut Faults<'k>,
) -> Result<(), OutOfMemory>
    requires { KnowsFaultPlaces faults.old.places faults.old.list.items }
    ensures list { OnOk result (faults.new.list.items ≡ with_each number (map lined_view found.now) faults.old.list.items) }
    ensures knows { OnOk result (KnowsFaultPlaces faults.new.places faults.new.list.items) }
{
    for one in found {
        add_found(alloc, one.fault, one.line, number, faults)?;
    }
    Ok(())
}

/// The faults as a list.
pub fn list_of(alloc: Global, faults: Faults) -> Result<ItemList<PackFault>, OutOfMemory>
    ensures { IfOk result (λ list. list ≡ faults.entry.list.items) }
{
    let found = faults.list;
    let mut list = ItemList::with_room(alloc, found.len())?;
    for fault in found {
        list.push(fault)?;
    }
    Ok(list)
}
