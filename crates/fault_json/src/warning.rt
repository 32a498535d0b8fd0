//! Faults and warnings as a JSON value, and its text.
ghost use Rattle.std.specs.Prelude.{◌≡◌, IfOk, OnOk, map, string_bytes};
ghost use Rattle.serde_json.specs.View.{view, members_view};
ghost use Rattle.text_lines.specs.Puts.{PutsText};
ghost use Rattle.fault_json.specs.WarningsJson as json;
ghost use Rattle.fault_json.specs.WarningsJson.{with_kind, with_warning_place, warned_data, warned_json};

use crate::fault::{for_value, put_step};
use crate::parts::text_or_null;
use crate::whole::{fault_values, put_checked, put_unchecked};
use crate::writing::{line_of, put_made};
use dap_base::Sink;
use fault_lines::warning_kind_text;
use pack_faults::{PackFaults, SetName};
use pack_warnings::{FoundWarning, PackWarning};
use serde_json::{Map, Value, put};
use std::alloc::{AllocError, Global};
use text_lines::TextError;

// What it is of, and the name that it is about.
fn put_kind(
    alloc: Global,
    members: &mut Map<String, Value>,
    found: &FoundWarning,
) -> Result<(), AllocError>
    ensures { OnOk result (members_view members.new.entries ≡ with_kind found.now (members_view members.old.entries)) }
{
    let kind = Value::try_from_str(alloc, warning_kind_text(found.warning.kind))?;
    put(members, alloc, "kind", kind)?;
    put(
        members,
        alloc,
        "name",
        text_or_null(alloc, &found.warning.name)?,
    )
}

// Line and column, and the text of the line.
fn put_place(
    alloc: Global,
    members: &mut Map<String, Value>,
    found: &FoundWarning,
) -> Result<(), AllocError>
    ensures { OnOk result (members_view members.new.entries ≡ with_warning_place found.now (members_view members.old.entries)) }
{
    let place = found.warning.spot.place;
    put(members, alloc, "line", Value::from(place.line))?;
    put(members, alloc, "column", Value::from(place.column))?;
    put(members, alloc, "text", text_or_null(alloc, &found.line)?)
}

/// The value of a warning, with the names of these sets; its keys are those of a fault. `AllocError` where memory is refused.
pub fn warning_value(
    alloc: Global,
    sets: &[SetName],
    warning: &PackWarning,
) -> Result<Value, AllocError>
    ensures { IfOk result (λ v. view v ≡ json.warning_data sets.now warning.now) }
{
    let mut members = Map::new(alloc);
    put_kind(alloc, &mut members, &warning.found)?;
    put_step(alloc, &mut members, &warning.found.warning.spot)?;
    put_place(alloc, &mut members, &warning.found)?;
    put(
        &mut members,
        alloc,
        "for",
        for_value(alloc, sets, warning.sets.as_slice())?,
    )?;
    Ok(Value::Object(members))
}

fn warning_values(
    alloc: Global,
    sets: &[SetName],
    warnings: &[PackWarning],
) -> Result<Vec<Value>, AllocError>
    ensures { IfOk result (λ vs. map view vs.items ≡ map (json.warning_data sets.now) warnings.now) }
{
    let mut values = Vec::new(alloc);
    for warning in warnings {
        values.push(warning_value(alloc, sets, warning)?)?;
    }
    Ok(values)
}

/// The value of faults as `faults_value` gives it, with the key `warnings`. `AllocError` where memory is refused.
pub fn warned_value(
    alloc: Global,
    faults: &PackFaults,
    warnings: &[PackWarning],
) -> Result<Value, AllocError>
    ensures { IfOk result (λ v. view v ≡ warned_data faults.now warnings.now) }
{
    let mut members = Map::new(alloc);
    let values = fault_values(alloc, faults.sets.as_slice(), faults.faults.as_slice())?;
    put(&mut members, alloc, "faults", Value::Array(values))?;
    let values = warning_values(alloc, faults.sets.as_slice(), warnings)?;
    put(&mut members, alloc, "warnings", Value::Array(values))?;
    put_checked(alloc, &mut members, faults)?;
    put_unchecked(alloc, &mut members, faults)?;
    Ok(Value::Object(members))
}

// The text of the value, in a line.
#[tactic(auto, using(crate::proofs::WarnedFloats::warned_line))]
fn text_of(
    alloc: Global,
    faults: &PackFaults,
    warnings: &[PackWarning],
) -> Result<String, AllocError>
    ensures { IfOk result (λ text. string_bytes text ≡ warned_json faults.now warnings.now) }
{
    let value = warned_value(alloc, faults, warnings)?;
    line_of(alloc, &value)
}

/// Puts the text of the value of faults and warnings, in one line, by one `put`. `Failed` where the sink failed,
/// `OutOfMemory` where memory is refused; a prefix of the text was then appended.
pub fn write_warned_json<K: Sink>(
    alloc: Global,
    faults: &PackFaults,
    warnings: &[PackWarning],
    sink: &mut K,
) -> Result<(), TextError>
    ensures puts { PutsText (warned_json faults.now warnings.now) result TextError.Failed K.written K.faults sink.old sink.new }
{
    put_made(text_of(alloc, faults, warnings), sink)
}
