//! A fault as a JSON value.
ghost use Rattle.std.specs.Prelude.{◌≡◌, IfOk, OnOk, map, slice_get};
ghost use Rattle.std.specs.Option.{option_copied};
ghost use Rattle.serde_json.specs.View.{view, members_view};
ghost use Rattle.fault_json.specs.FaultsJson as json;
ghost use Rattle.fault_json.specs.FaultsJson.{set_data, data_if, for_data, with_what, with_step, with_place};

use crate::parts::{bytes_or_null, counts, text_or_null};
use check_lines::kind_text;
use fault_lines::name_of;
use pack_faults::{Found, PackFault, SetName};
use sequence_trees::{Spot, part_text};
use serde_json::{Map, Value, put};
use std::alloc::{AllocError, Global};

fn set_value(alloc: Global, set: &SetName) -> Result<Value, AllocError>
    ensures { IfOk result (λ v. view v ≡ set_data set.now) }
{
    let mut members = Map::new(alloc);
    let device = Value::try_from_str(alloc, set.device.as_str())?;
    put(&mut members, alloc, "device", device)?;
    put(
        &mut members,
        alloc,
        "variant",
        text_or_null(alloc, &set.variant)?,
    )?;
    put(
        &mut members,
        alloc,
        "pname",
        text_or_null(alloc, &set.pname)?,
    )?;
    Ok(Value::Object(members))
}

// The set at this place.
fn set_at(sets: &[SetName], place: usize) -> Option<&SetName>
    ensures { option_copied result ≡ slice_get sets.now place }
{
    sets.get(place)
}

// The names of a set, or null where there is none.
fn value_if(alloc: Global, set: Option<&SetName>) -> Result<Value, AllocError>
    ensures { IfOk result (λ v. view v ≡ data_if (option_copied set.entry)) }
{
    match set {
        Some(set) => set_value(alloc, set),
        None => Ok(Value::Null),
    }
}

fn value_at(alloc: Global, sets: &[SetName], place: usize) -> Result<Value, AllocError>
    ensures { IfOk result (λ v. view v ≡ data_if (slice_get sets.now place)) }
{
    value_if(alloc, set_at(sets, place))
}

fn values_at(alloc: Global, sets: &[SetName], places: &[usize]) -> Result<Vec<Value>, AllocError>
    ensures { IfOk result (λ vs. map view vs.items ≡ map (λ place. data_if (slice_get sets.now place)) places.now) }
{
    let mut values = Vec::new(alloc);
    for place in places {
        values.push(value_at(alloc, sets, *place)?)?;
    }
    Ok(values)
}

/// The sets at these places.
pub fn for_value(alloc: Global, sets: &[SetName], places: &[usize]) -> Result<Value, AllocError>
    ensures { IfOk result (λ v. view v ≡ for_data sets.now places.now) }
{
    Ok(Value::Array(values_at(alloc, sets, places)?))
}

// What is wrong, and the name that it is about.
fn put_what(
    alloc: Global,
    members: &mut Map<String, Value>,
    found: &Found,
) -> Result<(), AllocError>
    ensures { OnOk result (members_view members.new.entries ≡ with_what found.now (members_view members.old.entries)) }
{
    let kind = Value::try_from_str(alloc, kind_text(found.fault.kind))?;
    put(members, alloc, "kind", kind)?;
    put(
        members,
        alloc,
        "name",
        bytes_or_null(alloc, name_of(found))?,
    )
}

/// The sequence, the steps and the part.
pub fn put_step(
    alloc: Global,
    members: &mut Map<String, Value>,
    spot: &Spot,
) -> Result<(), AllocError>
    ensures { OnOk result (members_view members.new.entries ≡ with_step spot.now (members_view members.old.entries)) }
{
    put(
        members,
        alloc,
        "sequence",
        text_or_null(alloc, &spot.sequence)?,
    )?;
    put(members, alloc, "path", counts(alloc, spot.path.as_slice())?)?;
    let part = Value::try_from_str(alloc, part_text(spot.part))?;
    put(members, alloc, "part", part)
}

// Line and column, and the text of the line.
fn put_place(
    alloc: Global,
    members: &mut Map<String, Value>,
    found: &Found,
) -> Result<(), AllocError>
    ensures { OnOk result (members_view members.new.entries ≡ with_place found.now (members_view members.old.entries)) }
{
    let place = found.fault.spot.place;
    put(members, alloc, "line", Value::from(place.line))?;
    put(members, alloc, "column", Value::from(place.column))?;
    put(members, alloc, "text", text_or_null(alloc, &found.line)?)
}

/// The value of a fault, with the names of these sets: `kind`, `name`, `sequence`, `path`, `part`, `line`, `column`,
/// `text` and `for`. `AllocError` where memory is refused.
pub fn fault_value(alloc: Global, sets: &[SetName], fault: &PackFault) -> Result<Value, AllocError>
    ensures { IfOk result (λ v. view v ≡ json.fault_data sets.now fault.now) }
{
    let mut members = Map::new(alloc);
    put_what(alloc, &mut members, &fault.found)?;
    put_step(alloc, &mut members, &fault.found.fault.spot)?;
    put_place(alloc, &mut members, &fault.found)?;
    put(
        &mut members,
        alloc,
        "for",
        for_value(alloc, sets, fault.sets.as_slice())?,
    )?;
    Ok(Value::Object(members))
}
