//! Faults and warnings as a log of SARIF 2.1.0.
ghost use Rattle.std.specs.Prelude.{◌≡◌, ◌++◌, [], ◌∷◌, IfOk, OnOk, map, string_bytes};
ghost use Rattle.text_lines.specs.Puts.{PutsText};
ghost use Rattle.serde_json.specs.View.{view, members_view};
ghost use Rattle.fault_json.specs.SarifLog.{all_kinds, rule_data, with_physical};
ghost use Rattle.fault_json.specs.WarningsSarif as sarif;
ghost use Rattle.fault_json.specs.WarningsSarif.{all_warning_kinds, warning_rule, all_rules, warned_tool, name_along, sequence_name};
ghost use Rattle.fault_json.specs.WarningsSarif.{warning_logical, warning_location, with_warning_rule, warning_message_data};
ghost use Rattle.fault_json.specs.WarningsSarif.{warning_result, all_results, warned_run};

use crate::sarif::{
    KINDS, line_text, one_item, one_member, physical_value, results_of, rules_of, step_name,
};
use crate::writing::{line_of, put_made};
use dap_base::{NameText, OutOfMemory, Place, Sink};
use fault_lines::{warning_kind_text, warning_message_line};
use pack_faults::{PackFaults, SetName};
use pack_warnings::{FoundWarning, PackWarning};
use sequence_trees::Spot;
use serde_json::{Map, Value, put};
use set_warnings::WarningKind;
use std::alloc::{AllocError, Global};
use text_lines::{Line, TextError};

const WARNING_KINDS: [WarningKind; 4] = [
    WarningKind::AssignedDebugVariable,
    WarningKind::WaitByName,
    WarningKind::UncalledSequence,
    WarningKind::LongWait,
];

fn rule_value(alloc: Global, kind: WarningKind) -> Result<Value, AllocError>
    ensures { IfOk result (λ v. view v ≡ warning_rule kind) }
{
    one_member(
        alloc,
        "id",
        Value::try_from_str(alloc, warning_kind_text(kind))?,
    )
}

// Adds a rule for each of these kinds.
fn add_rules(alloc: Global, kinds: &[WarningKind], rules: &mut Vec<Value>) -> Result<(), AllocError>
    ensures { OnOk result (map view rules.new.items ≡ map view rules.old.items ++ map warning_rule kinds.now) }
{
    for kind in kinds {
        rules.push(rule_value(alloc, *kind)?)?;
    }
    Ok(())
}

// The rules of faults and of warnings.
fn all_rules(alloc: Global) -> Result<Vec<Value>, AllocError>
    ensures { IfOk result (λ vs. map view vs.items ≡ all_rules) }
{
    let mut rules = rules_of(alloc, &KINDS)?;
    add_rules(alloc, &WARNING_KINDS, &mut rules)?;
    Ok(rules)
}

fn tool_value(alloc: Global) -> Result<Value, AllocError>
    ensures { IfOk result (λ v. view v ≡ warned_tool) }
{
    let mut members = Map::new(alloc);
    let name = Value::try_from_str(alloc, "dapseq_faults")?;
    put(&mut members, alloc, "name", name)?;
    put(
        &mut members,
        alloc,
        "rules",
        Value::Array(all_rules(alloc)?),
    )?;
    one_member(alloc, "driver", Value::Object(members))
}

fn sequence_line(alloc: Global, sequence: &Option<NameText>) -> Result<Line, OutOfMemory>
    ensures { IfOk result (λ line. line ≡ sequence_name sequence.now) }
{
    let line = Line::begin(alloc, "")?;
    match sequence {
        Some(name) => line.add_shown(name.as_str().as_bytes()),
        None => Ok(line),
    }
}

// The sequence, the step and its part, or a sequence itself.
fn name_of(alloc: Global, spot: &Spot) -> Result<Line, OutOfMemory>
    ensures { IfOk result (λ line. line ≡ name_along spot.now.path spot.now) }
{
    match spot.path.as_slice() {
        [] => sequence_line(alloc, &spot.sequence),
        _ => step_name(alloc, spot),
    }
}

fn logical_value(alloc: Global, spot: &Spot) -> Result<Value, AllocError>
    ensures { IfOk result (λ v. view v ≡ warning_logical spot.now) }
{
    let Ok(name) = name_of(alloc, spot) else {
        return Err(AllocError);
    };
    one_member(alloc, "fullyQualifiedName", line_text(alloc, &name)?)
}

// The place, where there is one in a text.
fn put_physical(
    alloc: Global,
    members: &mut Map<String, Value>,
    line: &Option<NameText>,
    place: Place,
) -> Result<(), AllocError>
    ensures { OnOk result (members_view members.new.entries ≡ with_physical line.now place (members_view members.old.entries)) }
{
    let Some(line) = line else {
        return Ok(());
    };
    let physical = physical_value(alloc, line, place)?;
    put(members, alloc, "physicalLocation", physical)
}

fn location_value(alloc: Global, found: &FoundWarning) -> Result<Value, AllocError>
    ensures { IfOk result (λ v. view v ≡ warning_location found.now) }
{
    let spot = &found.warning.spot;
    let mut members = Map::new(alloc);
    let logical = one_item(alloc, logical_value(alloc, spot)?)?;
    put(&mut members, alloc, "logicalLocations", logical)?;
    put_physical(alloc, &mut members, &found.line, spot.place)?;
    Ok(Value::Object(members))
}

// The rule and the level.
fn put_rule(
    alloc: Global,
    members: &mut Map<String, Value>,
    found: &FoundWarning,
) -> Result<(), AllocError>
    ensures { OnOk result (members_view members.new.entries ≡ with_warning_rule found.now (members_view members.old.entries)) }
{
    let rule = Value::try_from_str(alloc, warning_kind_text(found.warning.kind))?;
    put(members, alloc, "ruleId", rule)?;
    let level = Value::try_from_str(alloc, "warning")?;
    put(members, alloc, "level", level)
}

fn message_value(
    alloc: Global,
    sets: &[SetName],
    warning: &PackWarning,
) -> Result<Value, AllocError>
    ensures { IfOk result (λ v. view v ≡ warning_message_data sets.now warning.now) }
{
    let Ok(line) = warning_message_line(alloc, sets, warning) else {
        return Err(AllocError);
    };
    one_member(alloc, "text", line_text(alloc, &line)?)
}

fn result_value(alloc: Global, sets: &[SetName], warning: &PackWarning) -> Result<Value, AllocError>
    ensures { IfOk result (λ v. view v ≡ warning_result sets.now warning.now) }
{
    let mut members = Map::new(alloc);
    put_rule(alloc, &mut members, &warning.found)?;
    let message = message_value(alloc, sets, warning)?;
    put(&mut members, alloc, "message", message)?;
    let locations = one_item(alloc, location_value(alloc, &warning.found)?)?;
    put(&mut members, alloc, "locations", locations)?;
    Ok(Value::Object(members))
}

// Adds a result for each of these warnings.
fn add_results(
    alloc: Global,
    sets: &[SetName],
    warnings: &[PackWarning],
    results: &mut Vec<Value>,
) -> Result<(), AllocError>
    ensures { OnOk result (map view results.new.items ≡ map view results.old.items ++ map (warning_result sets.now) warnings.now) }
{
    for warning in warnings {
        results.push(result_value(alloc, sets, warning)?)?;
    }
    Ok(())
}

// The results of faults and of warnings.
fn all_results(
    alloc: Global,
    faults: &PackFaults,
    warnings: &[PackWarning],
) -> Result<Vec<Value>, AllocError>
    ensures { IfOk result (λ vs. map view vs.items ≡ all_results faults.now warnings.now) }
{
    let sets = faults.sets.as_slice();
    let mut results = results_of(alloc, sets, faults.faults.as_slice())?;
    add_results(alloc, sets, warnings, &mut results)?;
    Ok(results)
}

fn run_value(
    alloc: Global,
    faults: &PackFaults,
    warnings: &[PackWarning],
) -> Result<Value, AllocError>
    ensures { IfOk result (λ v. view v ≡ warned_run faults.now warnings.now) }
{
    let mut members = Map::new(alloc);
    put(&mut members, alloc, "tool", tool_value(alloc)?)?;
    let results = all_results(alloc, faults, warnings)?;
    put(&mut members, alloc, "results", Value::Array(results))?;
    let columns = Value::try_from_str(alloc, "unicodeCodePoints")?;
    put(&mut members, alloc, "columnKind", columns)?;
    Ok(Value::Object(members))
}

/// The log of faults as `sarif_value` gives it, with a rule for each kind of warning and a result for each warning, after
/// those of faults. `AllocError` where memory is refused.
pub fn warned_log(
    alloc: Global,
    faults: &PackFaults,
    warnings: &[PackWarning],
) -> Result<Value, AllocError>
    ensures { IfOk result (λ v. view v ≡ sarif.warned_log faults.now warnings.now) }
{
    let mut members = Map::new(alloc);
    let schema = Value::try_from_str(alloc, "https://json.schemastore.org/sarif-2.1.0.json")?;
    put(&mut members, alloc, "$schema", schema)?;
    let version = Value::try_from_str(alloc, "2.1.0")?;
    put(&mut members, alloc, "version", version)?;
    let runs = one_item(alloc, run_value(alloc, faults, warnings)?)?;
    put(&mut members, alloc, "runs", runs)?;
    Ok(Value::Object(members))
}

// The text of the log, in a line.
#[tactic(auto, using(crate::proofs::WarnedFloats::log_line))]
fn text_of(
    alloc: Global,
    faults: &PackFaults,
    warnings: &[PackWarning],
) -> Result<String, AllocError>
    ensures { IfOk result (λ text. string_bytes text ≡ sarif.warned_sarif faults.now warnings.now) }
{
    let log = warned_log(alloc, faults, warnings)?;
    line_of(alloc, &log)
}

/// Puts the text of the log of faults and warnings, in one line, by one `put`. `Failed` where the sink failed,
/// `OutOfMemory` where memory is refused; a prefix of the text was then appended.
pub fn write_warned_sarif<K: Sink>(
    alloc: Global,
    faults: &PackFaults,
    warnings: &[PackWarning],
    sink: &mut K,
) -> Result<(), TextError>
    ensures puts { PutsText (sarif.warned_sarif faults.now warnings.now) result TextError.Failed K.written K.faults sink.old sink.new }
{
    put_made(text_of(alloc, faults, warnings), sink)
}
