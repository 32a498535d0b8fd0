//! All faults of a pack as a log of SARIF 2.1.0, and its text.
ghost use Rattle.std.specs.Prelude.{◌≡◌, [], ◌∷◌, IfOk, OnOk, map, string_bytes};
ghost use Rattle.text_lines.specs.Puts.{PutsText};
ghost use Rattle.serde_json.specs.View.{view, members_view};
ghost use Rattle.fault_json.specs.Parts.{list};
ghost use Rattle.fault_json.specs.SarifLog as sarif;
ghost use Rattle.fault_json.specs.SarifLog.{one_member, line_text, all_kinds, rule_data, tool_data, logical_data, region_data};
ghost use Rattle.fault_json.specs.SarifLog.{physical_data, with_physical, location_data, with_rule, message_data, result_data, run_data};

use crate::columns::character_column;
use crate::writing::{line_of, put_made};
use check_lines::kind_text;
use code_check::FaultKind;
use dap_base::{NameText, OutOfMemory, Place, Sink};
use fault_lines::message_line;
use pack_faults::{Found, PackFault, PackFaults, SetName};
use sequence_trees::{Spot, part_text};
use serde_json::{Map, Value, put};
use std::alloc::{AllocError, Global};
use text_lines::{Line, TextError};

/// All kinds of faults.
pub const KINDS: [FaultKind; 15] = [
    FaultKind::Syntax,
    FaultKind::UndefinedName,
    FaultKind::Redeclared,
    FaultKind::UndefinedSequence,
    FaultKind::UndefinedFunction,
    FaultKind::ArgumentCount,
    FaultKind::TextExpected,
    FaultKind::NumberExpected,
    FaultKind::FormatMismatch,
    FaultKind::BadDebugvars,
    FaultKind::UnboundedLoop,
    FaultKind::TimeoutTooLong,
    FaultKind::NestedTooDeep,
    FaultKind::CallCycle,
    FaultKind::CallsTooDeep,
];

/// An object with one member.
pub fn one_member(alloc: Global, key: &str, value: Value) -> Result<Value, AllocError>
    ensures { IfOk result (λ v. view v ≡ one_member key.now (view value)) }
{
    let mut members = Map::new(alloc);
    put(&mut members, alloc, key, value)?;
    Ok(Value::Object(members))
}

/// A list with one item.
pub fn one_item(alloc: Global, item: Value) -> Result<Value, AllocError>
    ensures { IfOk result (λ v. view v ≡ list (view item ∷ [])) }
{
    Ok(Value::Array(vec![in alloc; item]?))
}

/// The bytes of a line as a text.
pub fn line_text(alloc: Global, line: &Line) -> Result<Value, AllocError>
    ensures { IfOk result (λ v. view v ≡ line_text line.now) }
{
    Ok(Value::String(String::from_utf8_lossy(alloc, line.as_bytes())?))
}

fn rule_value(alloc: Global, kind: FaultKind) -> Result<Value, AllocError>
    ensures { IfOk result (λ v. view v ≡ rule_data kind) }
{
    one_member(alloc, "id", Value::try_from_str(alloc, kind_text(kind))?)
}

/// A rule for each of these kinds.
pub fn rules_of(alloc: Global, kinds: &[FaultKind]) -> Result<Vec<Value>, AllocError>
    ensures { IfOk result (λ vs. map view vs.items ≡ map rule_data kinds.now) }
{
    let mut rules = Vec::new(alloc);
    for kind in kinds {
        rules.push(rule_value(alloc, *kind)?)?;
    }
    Ok(rules)
}

fn tool_value(alloc: Global) -> Result<Value, AllocError>
    ensures { IfOk result (λ v. view v ≡ tool_data) }
{
    let mut members = Map::new(alloc);
    let name = Value::try_from_str(alloc, "dapseq_faults")?;
    put(&mut members, alloc, "name", name)?;
    put(
        &mut members,
        alloc,
        "rules",
        Value::Array(rules_of(alloc, &KINDS)?),
    )?;
    one_member(alloc, "driver", Value::Object(members))
}

/// The sequence, the step and its part, or the debug variables.
pub fn step_name(alloc: Global, spot: &Spot) -> Result<Line, OutOfMemory>
    ensures { IfOk result (λ line. line ≡ sarif.step_name spot.now.sequence spot.now.path spot.now.part) }
{
    match &spot.sequence {
        None => Line::begin(alloc, "debugvars"),
        Some(name) => Line::begin(alloc, "")?
            .add_shown(name.as_str().as_bytes())?
            .text(" ")?
            .add_dotted(spot.path.as_slice())?
            .text(" ")?
            .text(part_text(spot.part)),
    }
}

fn logical_value(alloc: Global, spot: &Spot) -> Result<Value, AllocError>
    ensures { IfOk result (λ v. view v ≡ logical_data spot.now) }
{
    let Ok(name) = step_name(alloc, spot) else {
        return Err(AllocError);
    };
    one_member(alloc, "fullyQualifiedName", line_text(alloc, &name)?)
}

// A place in this line; its column counts characters.
fn region_value(alloc: Global, line: &NameText, place: Place) -> Result<Value, AllocError>
    ensures { IfOk result (λ v. view v ≡ region_data line.now place) }
{
    let column = character_column(line.as_str().as_bytes(), place.column);
    let mut members = Map::new(alloc);
    put(&mut members, alloc, "startLine", Value::from(place.line))?;
    put(&mut members, alloc, "startColumn", Value::from(column))?;
    Ok(Value::Object(members))
}

/// A place in a text of the job, in this line.
pub fn physical_value(alloc: Global, line: &NameText, place: Place) -> Result<Value, AllocError>
    ensures { IfOk result (λ v. view v ≡ physical_data line.now place) }
{
    let mut members = Map::new(alloc);
    let uri = Value::try_from_str(alloc, "job.json")?;
    put(
        &mut members,
        alloc,
        "artifactLocation",
        one_member(alloc, "uri", uri)?,
    )?;
    let region = region_value(alloc, line, place)?;
    put(&mut members, alloc, "region", region)?;
    Ok(Value::Object(members))
}

// The place, where there is one in a text.
fn put_physical(
    alloc: Global,
    members: &mut Map<String, Value>,
    found: &Found,
) -> Result<(), AllocError>
    ensures { OnOk result (members_view members.new.entries ≡ with_physical found.now.line found.now.fault.spot.place (members_view members.old.entries)) }
{
    let Some(line) = &found.line else {
        return Ok(());
    };
    let physical = physical_value(alloc, line, found.fault.spot.place)?;
    put(members, alloc, "physicalLocation", physical)
}

fn location_value(alloc: Global, found: &Found) -> Result<Value, AllocError>
    ensures { IfOk result (λ v. view v ≡ location_data found.now) }
{
    let mut members = Map::new(alloc);
    let logical = one_item(alloc, logical_value(alloc, &found.fault.spot)?)?;
    put(&mut members, alloc, "logicalLocations", logical)?;
    put_physical(alloc, &mut members, found)?;
    Ok(Value::Object(members))
}

// The rule and the level.
fn put_rule(
    alloc: Global,
    members: &mut Map<String, Value>,
    found: &Found,
) -> Result<(), AllocError>
    ensures { OnOk result (members_view members.new.entries ≡ with_rule found.now (members_view members.old.entries)) }
{
    let rule = Value::try_from_str(alloc, kind_text(found.fault.kind))?;
    put(members, alloc, "ruleId", rule)?;
    put(
        members,
        alloc,
        "level",
        Value::try_from_str(alloc, "error")?,
    )
}

fn message_value(alloc: Global, sets: &[SetName], fault: &PackFault) -> Result<Value, AllocError>
    ensures { IfOk result (λ v. view v ≡ message_data sets.now fault.now) }
{
    let Ok(line) = message_line(alloc, sets, fault) else {
        return Err(AllocError);
    };
    one_member(alloc, "text", line_text(alloc, &line)?)
}

fn result_value(alloc: Global, sets: &[SetName], fault: &PackFault) -> Result<Value, AllocError>
    ensures { IfOk result (λ v. view v ≡ result_data sets.now fault.now) }
{
    let mut members = Map::new(alloc);
    put_rule(alloc, &mut members, &fault.found)?;
    put(
        &mut members,
        alloc,
        "message",
        message_value(alloc, sets, fault)?,
    )?;
    let locations = one_item(alloc, location_value(alloc, &fault.found)?)?;
    put(&mut members, alloc, "locations", locations)?;
    Ok(Value::Object(members))
}

/// A result for each of these faults.
pub fn results_of(
    alloc: Global,
    sets: &[SetName],
    faults: &[PackFault],
) -> Result<Vec<Value>, AllocError>
    ensures { IfOk result (λ vs. map view vs.items ≡ map (result_data sets.now) faults.now) }
{
    let mut results = Vec::new(alloc);
    for fault in faults {
        results.push(result_value(alloc, sets, fault)?)?;
    }
    Ok(results)
}

fn run_value(alloc: Global, faults: &PackFaults) -> Result<Value, AllocError>
    ensures { IfOk result (λ v. view v ≡ run_data faults.now) }
{
    let mut members = Map::new(alloc);
    put(&mut members, alloc, "tool", tool_value(alloc)?)?;
    let results = results_of(alloc, faults.sets.as_slice(), faults.faults.as_slice())?;
    put(&mut members, alloc, "results", Value::Array(results))?;
    let columns = Value::try_from_str(alloc, "unicodeCodePoints")?;
    put(&mut members, alloc, "columnKind", columns)?;
    Ok(Value::Object(members))
}

/// The log of the faults of a pack: one run of `dapseq_faults`, with a rule for each kind of fault and a result for each
/// fault. Columns of its regions count characters from 1. `AllocError` where memory is refused.
pub fn sarif_value(alloc: Global, faults: &PackFaults) -> Result<Value, AllocError>
    ensures { IfOk result (λ v. view v ≡ sarif.sarif_data faults.now) }
{
    let mut members = Map::new(alloc);
    let schema = Value::try_from_str(alloc, "https://json.schemastore.org/sarif-2.1.0.json")?;
    put(&mut members, alloc, "$schema", schema)?;
    put(
        &mut members,
        alloc,
        "version",
        Value::try_from_str(alloc, "2.1.0")?,
    )?;
    put(
        &mut members,
        alloc,
        "runs",
        one_item(alloc, run_value(alloc, faults)?)?,
    )?;
    Ok(Value::Object(members))
}

// The text of the log, in a line.
#[tactic(auto, using(crate::proofs::SarifFloats::sarif_line))]
fn text_of(alloc: Global, faults: &PackFaults) -> Result<String, AllocError>
    ensures { IfOk result (λ text. string_bytes text ≡ sarif.faults_sarif faults.now) }
{
    let log = sarif_value(alloc, faults)?;
    line_of(alloc, &log)
}

/// Puts the text of the log of the faults, in one line, by one `put`. `Failed` where the sink failed, `OutOfMemory`
/// where memory is refused; a prefix of the text was then appended.
pub fn write_sarif<K: Sink>(
    alloc: Global,
    faults: &PackFaults,
    sink: &mut K,
) -> Result<(), TextError>
    ensures puts { PutsText (sarif.faults_sarif faults.now) result TextError.Failed K.written K.faults sink.old sink.new }
{
    put_made(text_of(alloc, faults), sink)
}
