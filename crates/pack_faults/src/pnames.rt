//! The processors of the sequences of a path of levels.
ghost use Rattle.std.specs.Prelude.{◌≡◌, ◌++◌, [], None, Some, IfOk, OnOk, option_map, map, filter};
ghost use Rattle.std.specs.List.{list_any};
ghost use Rattle.std.specs.Str.{bytes_eq};
ghost use Rattle.sequence_resolve.specs.Views.{level_view};
ghost use Rattle.pack_faults.specs.Sets.{is_requested, pname_added, pnames_after, pnames_along, processors_of};
ghost use Rattle.pack_faults.specs.Views.{names_view, options_view};

use crate::devices::is_requested;
use dap_base::{ItemList, NameText, OutOfMemory};
use device_tree::SeqText;
use sequence_resolve::LevelRef;
use std::alloc::Global;

fn is_among(names: &[&NameText], name: &NameText) -> bool
    ensures { result ≡ list_any (bytes_eq name.now) (names_view names.now) }
{
    for other in names {
        if name.as_str() == other.as_str() {
            return true;
        }
    }
    false
}

// Adds a name unless it is there.
fn add_pname<'a>(
    names: &mut Vec<&'a NameText>,
    pname: &'a Option<NameText>,
) -> Result<(), OutOfMemory>
    ensures ok { OnOk result (names_view names.new.items ≡ pname_added (names_view names.old.items) pname.now) }
{
    if let Some(name) = pname {
        if !is_among(names, name) && names.push(name).is_err() {
            return Err(OutOfMemory);
        }
    }
    Ok(())
}

// Adds the processors of these sequences.
fn add_pnames<'a>(
    names: &mut Vec<&'a NameText>,
    sequences: &'a [SeqText],
) -> Result<(), OutOfMemory>
    ensures ok { OnOk result (names_view names.new.items ≡ pnames_after (names_view names.old.items) sequences.now) }
{
    for sequence in sequences {
        add_pname(names, &sequence.pname)?;
    }
    Ok(())
}

// The processors of the sequences of a path.
fn pnames_of<'a>(alloc: Global, levels: &[LevelRef<'a>]) -> Result<Vec<&'a NameText>, OutOfMemory>
    ensures { IfOk result (λ names. names_view names.items ≡ pnames_along [] (map level_view levels.now)) }
{
    let mut names = Vec::new(alloc);
    for level in levels {
        add_pnames(&mut names, level.level.sequences.as_slice())?;
    }
    Ok(names)
}

// Those of these names that are requested.
fn requested_names<'a>(
    alloc: Global,
    names: &[&'a NameText],
    requested: Option<&str>,
) -> Result<ItemList<Option<&'a NameText>>, OutOfMemory>
    ensures ok { IfOk result (λ pnames. options_view pnames
        ≡ map (λ name. Some name) (filter (is_requested (option_map (λ w. w.now) requested.entry)) (names_view names.now))) }
{
    let mut pnames = ItemList::new(alloc);
    for name in names {
        if is_requested(requested, name.as_str()) {
            pnames.push(Some(*name))?;
        }
    }
    Ok(pnames)
}

// Each of these names, or none where there is no name.
fn all_names<'a>(
    alloc: Global,
    names: &[&'a NameText],
) -> Result<ItemList<Option<&'a NameText>>, OutOfMemory>
    ensures { IfOk result (λ pnames. options_view pnames ≡ processors_of None (names_view names.now)) }
{
    if names.is_empty() {
        let mut pnames = ItemList::new(alloc);
        pnames.push(None)?;
        return Ok(pnames);
    }
    requested_names(alloc, names, None)
}

// Those of these names that are requested; where none is, each, or none where there is no name.
fn chosen_names<'a>(
    alloc: Global,
    names: &[&'a NameText],
    requested: Option<&str>,
) -> Result<ItemList<Option<&'a NameText>>, OutOfMemory>
    ensures { IfOk result (λ pnames. options_view pnames ≡ processors_of (option_map (λ w. w.now) requested.entry) (names_view names.now)) }
{
    match requested {
        None => all_names(alloc, names),
        Some(_) => requested_names(alloc, names, requested),
    }
}

/// The requested processors of these levels, or none where none is requested and no sequence has a `Pname`.
pub fn processors_of<'a>(
    alloc: Global,
    levels: &[LevelRef<'a>],
    requested: Option<&str>,
) -> Result<ItemList<Option<&'a NameText>>, OutOfMemory>
    ensures { IfOk result (λ pnames. options_view pnames ≡ processors_of (option_map (λ w. w.now) requested.entry) (pnames_along [] (map level_view levels.now))) }
{
    let names = pnames_of(alloc, levels)?;
    chosen_names(alloc, &names, requested)
}
