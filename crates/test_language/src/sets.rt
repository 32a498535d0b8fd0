//! The first fault of a set, all of them, and the trees of a valid one.
ghost use Rattle.std.specs.Prelude.{◌≡◌, IfOk, map};
ghost use Rattle.std.specs.List.{IsDistinct};
ghost use Rattle.std.specs.Str.{bytes_eq};

use dap_base::{ItemList, NameText, OutOfMemory};
use device_tree::{SharedSteps, Step, Steps};
use seq_check::{CheckFault, Checked, FaultKind, check};
use sequence_resolve::{LevelKind, SeqEntry, SeqSet};
use sequence_trees::Spot;
use set_faults::{Fault, all_faults};
use std::alloc::{AllocError, Global};

fn block(alloc: Global, code: &str) -> Result<Step, OutOfMemory> {
    let code = NameText::new(alloc, code)?;
    Ok(Step::Block {
        code,
        atomic: false,
    })
}

fn sequence(
    alloc: Global,
    name: &str,
    disabled: bool,
    steps: Steps,
) -> Result<SeqEntry, OutOfMemory>
    ensures { IfOk result (λ e. e.name ≡ name.now) }
{
    let name = NameText::new(alloc, name)?;
    Ok(SeqEntry {
        name,
        from: LevelKind::Device,
        disabled,
        steps: SharedSteps::new(alloc, steps)?,
    })
}

// The steps of a block with a fault.
fn faulty_steps(alloc: Global) -> Result<Steps, OutOfMemory> {
    let mut steps = Steps::new(alloc);
    steps.push(block(alloc, "(")?)?;
    Ok(steps)
}

// A loop without children.
fn empty_loop(alloc: Global, timeout: Option<u64>) -> Result<Step, OutOfMemory> {
    let repeat = NameText::new(alloc, "1")?;
    Ok(Step::Control {
        cond: None,
        repeat: Some(repeat),
        timeout,
        steps: Steps::new(alloc),
    })
}

fn loop_and_block(alloc: Global, timeout: Option<u64>, code: &str) -> Result<Steps, OutOfMemory> {
    let mut steps = Steps::new(alloc);
    steps.push(empty_loop(alloc, timeout)?)?;
    steps.push(block(alloc, code)?)?;
    Ok(steps)
}

// A disabled sequence with a fault, and one with a loop without children and this block after it.
fn entries(
    alloc: Global,
    timeout: Option<u64>,
    code: &str,
) -> Result<ItemList<SeqEntry>, OutOfMemory>
    ensures { IfOk result (λ list. IsDistinct bytes_eq (map (λ e. e.name) list)) }
{
    let off = sequence(alloc, "Off", true, faulty_steps(alloc)?)?;
    let main = sequence(alloc, "Main", false, loop_and_block(alloc, timeout, code)?)?;
    let mut entries = ItemList::new(alloc);
    entries.push(off)?;
    entries.push(main)?;
    Ok(entries)
}

// The set of these sequences.
fn set(
    alloc: Global,
    debugvars: &str,
    timeout: Option<u64>,
    code: &str,
) -> Result<SeqSet, OutOfMemory>
    ensures { IfOk result (λ s. IsDistinct bytes_eq (map (λ e. e.name) s.entries)) }
{
    let debugvars = NameText::new(alloc, debugvars)?;
    let entries = entries(alloc, timeout, code)?;
    Ok(SeqSet { entries, debugvars })
}

/// The line of a fault: its kind, part and path, line and column.
pub fn spot_line(alloc: Global, kind: &str, spot: &Spot) -> Result<String, AllocError> {
    let part = spot.part;
    let path = spot.path.as_slice();
    let place = spot.place;
    format!(in alloc;
        "{kind} {part:?} {path:?} {}:{}\n",
        place.line, place.column
    )
}

// Whether a valid set has the name, and how many steps.
fn name_line(alloc: Global, checked: &Checked, name: &str) -> Result<String, AllocError> {
    let has = checked.has(name);
    let steps = checked.steps(name).map(|steps| steps.len());
    format!(in alloc; "{name} {has} {steps:?}\n")
}

// The trees of a valid set: the number of debug variables, and of three names whether the set has them, and how many steps.
fn trees(alloc: Global, checked: &Checked) -> Result<String, AllocError> {
    let mut lines = format!(in alloc; "debugvars {}\n", checked.debugvars().len())?;
    for name in ["Off", "Main", "No"] {
        lines.push_str(&name_line(alloc, checked, name)?)?;
    }
    Ok(lines)
}

fn kind_line(alloc: Global, kind: FaultKind, spot: &Spot) -> Result<String, AllocError> {
    let kind = format!(in alloc; "{kind:?}")?;
    spot_line(alloc, &kind, spot)
}

fn check_lines(alloc: Global, set: &SeqSet) -> Result<String, AllocError>
    requires { IsDistinct bytes_eq (map (λ e. e.name) set.now.entries) }
{
    match check(alloc, set) {
        Ok(checked) => trees(alloc, &checked),
        Err(CheckFault::Fault(kind, spot)) => kind_line(alloc, kind, &spot),
        Err(CheckFault::OutOfMemory) => Err(AllocError),
    }
}

/// The first fault of a set, or the trees of a valid one. The text is the debug variables, a tab, and the code of the block;
/// the word is the timeout of the loop, where it has one.
pub fn check_text(alloc: Global, text: &str, word: &str) -> Result<String, AllocError> {
    let (debugvars, code) = text.split_once('\t').unwrap_or(("", text));
    let timeout = word.parse::<u64>().ok();
    match set(alloc, debugvars, timeout, code) {
        Ok(set) => check_lines(alloc, &set),
        Err(OutOfMemory) => Err(AllocError),
    }
}

// The lines of faults.
fn fault_lines(alloc: Global, faults: &[Fault]) -> Result<String, AllocError> {
    let mut lines = String::new(alloc);
    for fault in faults {
        lines.push_str(&kind_line(alloc, fault.kind, &fault.spot)?)?;
    }
    Ok(lines)
}

fn all_lines(alloc: Global, set: &SeqSet) -> Result<String, AllocError>
    requires { IsDistinct bytes_eq (map (λ e. e.name) set.now.entries) }
{
    match all_faults(alloc, set) {
        Ok(found) if found.faults.is_empty() => String::from_str(alloc, "none\n"),
        Ok(found) => fault_lines(alloc, found.faults.as_slice()),
        Err(OutOfMemory) => Err(AllocError),
    }
}

/// All faults of a set, which is that of `check_text`; `none` where it has none.
pub fn faults(alloc: Global, text: &str, word: &str) -> Result<String, AllocError> {
    let (debugvars, code) = text.split_once('\t').unwrap_or(("", text));
    let timeout = word.parse::<u64>().ok();
    match set(alloc, debugvars, timeout, code) {
        Ok(set) => all_lines(alloc, &set),
        Err(OutOfMemory) => Err(AllocError),
    }
}
