//! All faults of a pack as a JSON value, and its text.
ghost use Rattle.std.specs.Prelude.{◌≡◌, IfOk, OnOk, map, string_bytes};
ghost use Rattle.serde_json.specs.View.{view, members_view};
ghost use Rattle.text_lines.specs.Puts.{PutsText};
ghost use Rattle.fault_json.specs.FaultsJson.{fault_data, with_unchecked, with_checked, faults_data, faults_json};

use crate::fault::fault_value;
use crate::writing::{line_of, put_made};
use dap_base::Sink;
use pack_faults::{PackFault, PackFaults, SetName};
use serde_json::{Map, Value, put};
use std::alloc::{AllocError, Global};
use text_lines::TextError;

/// The values of faults, in order.
pub fn fault_values(
    alloc: Global,
    sets: &[SetName],
    faults: &[PackFault],
) -> Result<Vec<Value>, AllocError>
    ensures { IfOk result (λ vs. map view vs.items ≡ map (fault_data sets.now) faults.now) }
{
    let mut values = Vec::new(alloc);
    for fault in faults {
        values.push(fault_value(alloc, sets, fault)?)?;
    }
    Ok(values)
}

/// How many devices there are, and how many sets.
pub fn put_checked(
    alloc: Global,
    members: &mut Map<String, Value>,
    faults: &PackFaults,
) -> Result<(), AllocError>
    ensures { OnOk result (members_view members.new.entries ≡ with_checked faults.now (members_view members.old.entries)) }
{
    put(members, alloc, "devices", Value::from(faults.devices))?;
    put(members, alloc, "sets", Value::from(faults.sets.len()))
}

/// How many sets have names, and calls, that were not checked.
pub fn put_unchecked(
    alloc: Global,
    members: &mut Map<String, Value>,
    faults: &PackFaults,
) -> Result<(), AllocError>
    ensures { OnOk result (members_view members.new.entries ≡ with_unchecked faults.now (members_view members.old.entries)) }
{
    put(
        members,
        alloc,
        "names_not_checked",
        Value::from(faults.unread),
    )?;
    put(
        members,
        alloc,
        "calls_not_all_checked",
        Value::from(faults.unreached),
    )
}

/// The value of the faults of a pack: `faults`, each as in [`fault_value`], `devices`, `sets`, `names_not_checked` and
/// `calls_not_all_checked`. `AllocError` where memory is refused.
pub fn faults_value(alloc: Global, faults: &PackFaults) -> Result<Value, AllocError>
    ensures { IfOk result (λ v. view v ≡ faults_data faults.now) }
{
    let mut members = Map::new(alloc);
    let values = fault_values(alloc, faults.sets.as_slice(), faults.faults.as_slice())?;
    put(&mut members, alloc, "faults", Value::Array(values))?;
    put_checked(alloc, &mut members, faults)?;
    put_unchecked(alloc, &mut members, faults)?;
    Ok(Value::Object(members))
}

// The text of the value, in a line.
#[tactic(auto, using(crate::proofs::NoFloats::json_line))]
fn text_of(alloc: Global, faults: &PackFaults) -> Result<String, AllocError>
    ensures { IfOk result (λ text. string_bytes text ≡ faults_json faults.now) }
{
    let value = faults_value(alloc, faults)?;
    line_of(alloc, &value)
}

/// Puts the text of the value of the faults, in one line, by one `put`. `Failed` where the sink failed, `OutOfMemory`
/// where memory is refused; a prefix of the text was then appended.
pub fn write_json<K: Sink>(
    alloc: Global,
    faults: &PackFaults,
    sink: &mut K,
) -> Result<(), TextError>
    ensures puts { PutsText (faults_json faults.now) result TextError.Failed K.written K.faults sink.old sink.new }
{
    put_made(text_of(alloc, faults), sink)
}
