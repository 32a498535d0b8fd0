//! Which sequences of a pack apply, and what is read of their texts.
ghost use Rattle.std.specs.Prelude.{map};
ghost use Rattle.std.specs.List.{IsDistinct};
ghost use Rattle.std.specs.Str.{bytes_eq};

use crate::sets::spot_line;
use device_tree::{Pack, Step, pack_of};
use sequence_resolve::{ResolveFault, SeqEntry, SeqSet, effective};
use sequence_trees::{CheckedStep, CheckedSteps, ReadSet, SetFault, read_set};
use serde_json::Value;
use std::alloc::{AllocError, Global};

fn pack(alloc: Global, text: &str) -> Option<Pack> {
    let Ok(value) = Value::from_str(alloc, text) else {
        return None;
    };
    pack_of(alloc, &value).ok()
}

// What is requested of a pack: `device=D1,variant=V1,pname=P1`; the last two may be left out.
fn option_named<'a>(words: &'a str, name: &str) -> Option<&'a str> {
    for word in words.split(',') {
        if let Some((key, value)) = word.split_once('=') {
            if key == name {
                return Some(value);
            }
        }
    }
    None
}

// The code of the first step, where it is a block.
fn first_code(entry: &SeqEntry) -> &str {
    match entry.steps.as_steps().get(0) {
        Some(Step::Block { code, .. }) => code.as_str(),
        _ => "",
    }
}

// The name of an entry, its level, whether it is disabled, and its first block.
fn entry_line(alloc: Global, entry: &SeqEntry) -> Result<String, AllocError> {
    let (name, code) = (entry.name.as_str(), first_code(entry));
    let (from, disabled) = (entry.from, entry.disabled);
    format!(in alloc; "{name} {from:?} {disabled} [{code}]\n")
}

// The debug variables and the entries of a set.
fn entry_lines(alloc: Global, set: &SeqSet) -> Result<String, AllocError> {
    let mut lines = format!(in alloc; "debugvars [{}]\n", set.debugvars.as_str())?;
    for entry in set.entries.as_slice() {
        lines.push_str(&entry_line(alloc, entry)?)?;
    }
    Ok(lines)
}

// The set of a pack that the words request.
fn set_of(alloc: Global, pack: &Pack, words: &str) -> Result<SeqSet, ResolveFault> {
    let device = option_named(words, "device").unwrap_or("");
    let variant = option_named(words, "variant");
    let pname = option_named(words, "pname");
    effective(alloc, pack, device, variant, pname)
}

fn level_lines(alloc: Global, pack: &Pack, words: &str) -> Result<String, AllocError> {
    match set_of(alloc, pack, words) {
        Ok(set) => entry_lines(alloc, &set),
        Err(ResolveFault::OutOfMemory) => Err(AllocError),
        Err(fault) => format!(in alloc; "{fault:?}\n"),
    }
}

/// The debug variables and the entries of the set that applies, or why there is none.
pub fn levels(alloc: Global, text: &str, words: &str) -> Result<String, AllocError> {
    match pack(alloc, text) {
        Some(pack) => level_lines(alloc, &pack, words),
        None => String::from_str(alloc, "no pack\n"),
    }
}

// Adds a step: of a block the number of its statements.
fn push_step(alloc: Global, text: &mut String, step: &CheckedStep) -> Result<(), AllocError> {
    match step {
        CheckedStep::Block(code) => text.push_str(&format!(in alloc; " block {}", code.len())?),
        CheckedStep::Control { .. } => text.push_str(" control"),
    }
}

// The line of a sequence: its name and its steps.
fn sequence_line(alloc: Global, name: &str, steps: &CheckedSteps) -> Result<String, AllocError> {
    let mut text = String::from_str(alloc, name)?;
    for step in steps.as_slice() {
        push_step(alloc, &mut text, step)?;
    }
    text.push_str("\n")?;
    Ok(text)
}

// The number of debug variables, and each sequence in order with its steps.
fn set_lines(alloc: Global, read: &ReadSet) -> Result<String, AllocError> {
    let mut lines = format!(in alloc; "debugvars {}\n", read.debugvars().len())?;
    for index in 0..read.len() {
        if let (Some(name), Some(steps)) = (read.name_at(index), read.steps_at(index)) {
            lines.push_str(&sequence_line(alloc, name, steps)?)?;
        }
    }
    Ok(lines)
}

// Whether the set has the name, and how many steps.
fn name_line(alloc: Global, read: &ReadSet, name: &str) -> Result<String, AllocError> {
    let has = read.has(name);
    let steps = read.steps(name).map(|steps| steps.len());
    format!(in alloc; "{name} {has} {steps:?}\n")
}

fn read_lines(alloc: Global, read: &ReadSet, names: &str) -> Result<String, AllocError> {
    let mut lines = set_lines(alloc, read)?;
    for name in names.split(' ') {
        lines.push_str(&name_line(alloc, read, name)?)?;
    }
    Ok(lines)
}

// The same of a set that is not read yet, or its first text that is faulty.
fn reading(alloc: Global, set: &SeqSet, names: &str) -> Result<String, AllocError>
    requires { IsDistinct bytes_eq (map (λ e. e.name) set.now.entries) }
{
    match read_set(alloc, set) {
        Ok(read) => read_lines(alloc, &read, names),
        Err(SetFault::Syntax(spot)) => spot_line(alloc, "Syntax", &spot),
        Err(SetFault::OutOfMemory) => Err(AllocError),
    }
}

fn device_lines(alloc: Global, pack: &Pack, names: &str) -> Result<String, AllocError> {
    match effective(alloc, pack, "D", None, None) {
        Ok(set) => reading(alloc, &set, names),
        Err(_) => String::from_str(alloc, "no set\n"),
    }
}

/// What is read of the texts that apply to the device D, or the first that is faulty; and of each of the names, with spaces
/// between them, whether the set has it and how many steps.
pub fn read(alloc: Global, text: &str, names: &str) -> Result<String, AllocError> {
    match pack(alloc, text) {
        Some(pack) => device_lines(alloc, &pack, names),
        None => String::from_str(alloc, "no pack\n"),
    }
}
