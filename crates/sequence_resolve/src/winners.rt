//! The greatest candidate of each name.
ghost use Rattle.std.specs.Prelude.{◌≡◌, ℕ, ◌<◌, ◌≤◌, List, [], ◌∷◌, ◌++◌, Some, IfOk, OnOk, option_map, map, length, nat_le, slice_index_or, slice_set, if◌then◌else◌};
ghost use Rattle.std.specs.Str.{bytes_eq};
ghost use Rattle.std.specs.BTreeMap.{get_by_text};
ghost use Rattle.sequence_resolve.specs.Effective.{counts_for, rank_of, candidates_at, candidates};
ghost use Rattle.sequence_resolve.specs.Winners.{with_candidate, with_all, Knows};
ghost use Rattle.sequence_resolve.specs.Views.{level_view, winner_view};

use crate::entry::LevelKind;
use crate::levels::LevelRef;
use dap_base::{NameText, OutOfMemory};
use device_tree::SeqText;
use std::alloc::Global;
use std::collections::BTreeMap;

/// A candidate that no other of its name stands above so far.
#[derive(Clone, Copy)]
pub struct Winner<'a> {
    pub rank: usize,
    pub kind: LevelKind,
    pub sequence: &'a SeqText,
}

// The winners so far, and the place of each name among them.
#[derive(Drop)]
struct Winners<'a> {
    list: Vec<Winner<'a>>,
    places: BTreeMap<String, usize>,
}

fn counts(requested: Option<&str>, sequence: &SeqText) -> bool
    ensures { result ≡ counts_for (option_map (λ w. w.now) requested.entry) sequence.now.pname }
{
    match (&sequence.pname, requested) {
        (None, _) => true,
        (Some(_), None) => false,
        (Some(pname), Some(requested)) => requested == pname.as_str(),
    }
}

fn candidate_of<'a>(kind: LevelKind, depth: usize, sequence: &'a SeqText) -> Winner<'a>
    requires { depth < 8 }
    ensures { winner_view result ≡ record { rank = rank_of depth sequence.now; kind = kind; sequence = sequence.now } }
{
    let rank = 2 * depth + if sequence.pname.is_some() { 1 } else { 0 };
    Winner {
        rank,
        kind,
        sequence,
    }
}

// Puts the candidate into the place of the winner of its name, unless that stands above it.
fn put_over<'a>(list: &mut Vec<Winner<'a>>, place: usize, candidate: Winner<'a>)
    requires { place < length list.old.items }
    ensures { list.new.items ≡ (if nat_le (slice_index_or list.old.items place candidate.entry).rank candidate.entry.rank
        then slice_set list.old.items place candidate.entry else list.old.items) }
{
    if list[place].rank <= candidate.rank {
        list[place] = candidate;
    }
}

fn place_of(places: &BTreeMap<String, usize>, name: &NameText) -> Option<usize>
    ensures { result ≡ get_by_text places.now name.now }
{
    places.get(name.as_str()).copied()
}

// Notes the place of a name.
fn note_place(
    alloc: Global,
    places: &mut BTreeMap<String, usize>,
    name: &NameText,
    place: usize,
) -> Result<(), OutOfMemory>
    ensures { OnOk result ((other : List ℕ) → get_by_text places.new other ≡ (if bytes_eq name.now other then Some place else get_by_text places.old other)) }
{
    let Ok(key) = String::from_str(alloc, name.as_str()) else {
        return Err(OutOfMemory);
    };
    if places.insert(key, place).is_err() {
        return Err(OutOfMemory);
    }
    Ok(())
}

// Puts the candidate after the winners, as the first of its name.
fn put_last<'a>(
    alloc: Global,
    winners: &mut Winners<'a>,
    candidate: Winner<'a>,
) -> Result<(), OutOfMemory>
    ensures list { OnOk result (winners.new.list.items ≡ winners.old.list.items ++ candidate.entry ∷ []) }
    ensures places { OnOk result ((name : List ℕ) → get_by_text winners.new.places name
        ≡ (if bytes_eq candidate.entry.sequence.now.name name then Some (length winners.old.list.items) else get_by_text winners.old.places name)) }
{
    let place = winners.list.len();
    note_place(alloc, &mut winners.places, &candidate.sequence.name, place)?;
    if winners.list.push(candidate).is_err() {
        return Err(OutOfMemory);
    }
    Ok(())
}

// Puts a candidate among the winners of those before it.
fn put<'a>(
    alloc: Global,
    winners: &mut Winners<'a>,
    candidate: Winner<'a>,
) -> Result<(), OutOfMemory>
    requires { Knows winners.old.places (map winner_view winners.old.list.items) }
    ensures ok { OnOk result (map winner_view winners.new.list.items ≡ with_candidate (map winner_view winners.old.list.items) (winner_view candidate.entry)) }
    ensures knows { OnOk result (Knows winners.new.places (map winner_view winners.new.list.items)) }
{
    match place_of(&winners.places, &candidate.sequence.name) {
        Some(place) => put_over(&mut winners.list, place, candidate),
        None => put_last(alloc, winners, candidate)?,
    }
    Ok(())
}

// Puts the candidates of one level among the winners of those before them.
fn put_level<'a>(
    alloc: Global,
    winners: &mut Winners<'a>,
    level: LevelRef<'a>,
    depth: usize,
    requested: Option<&str>,
) -> Result<(), OutOfMemory>
    requires knows { Knows winners.old.places (map winner_view winners.old.list.items) }
    requires few { depth < 8 }
    ensures ok { OnOk result (map winner_view winners.new.list.items ≡ with_all (map winner_view winners.old.list.items)
        (candidates_at (option_map (λ w. w.now) requested.entry) level.entry.kind depth level.entry.level.now.sequences)) }
    ensures knows { OnOk result (Knows winners.new.places (map winner_view winners.new.list.items)) }
{
    for sequence in level.level.sequences.as_slice() {
        if counts(requested, sequence) {
            put(alloc, winners, candidate_of(level.kind, depth, sequence))?;
        }
    }
    Ok(())
}

/// The winners of the levels of a path.
pub fn winners_of<'a>(
    alloc: Global,
    levels: &[LevelRef<'a>],
    requested: Option<&str>,
) -> Result<Vec<Winner<'a>>, OutOfMemory>
    requires { length levels.now ≤ 5 }
    ensures { IfOk result (λ v. map winner_view v.items ≡ with_all [] (candidates (option_map (λ w. w.now) requested.entry) 0 (map level_view levels.now))) }
{
    let mut winners = Winners {
        list: Vec::new(alloc),
        places: BTreeMap::new(alloc),
    };
    for (depth, level) in levels.iter().enumerate() {
        put_level(alloc, &mut winners, *level, depth, requested)?;
    }
    Ok(winners.list)
}
