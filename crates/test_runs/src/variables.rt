//! Variables: those of a sequence, of which the newest is last, and those that all sequences share. An input has steps between `, `, and what
//! comes of those that ask for something is shown.
use crate::reading::{no_memory, number_in};
use dap_base::number;
use sequence_rules::{Globals, Locals};
use std::alloc::{AllocError, Global};

// The three words of a step: what is done, the variable, and a number.
fn step_words(step: &str) -> (&str, &str, u64) {
    let (verb, rest) = step.split_once(' ').unwrap_or((step, ""));
    let (name, value) = rest.split_once(' ').unwrap_or((rest, ""));
    (verb, name, number_in(value))
}

// The index that a word is; the last one where it is none.
fn index_in(word: &str) -> usize {
    match number(word) {
        Some(index) => usize::try_from(index).unwrap_or(usize::MAX),
        None => usize::MAX,
    }
}

fn value_text(alloc: Global, value: Option<u64>) -> Result<String, AllocError> {
    match value {
        Some(value) => format!(in alloc; "{value} "),
        None => String::from_str(alloc, "none "),
    }
}

fn flag_text(alloc: Global, flag: bool) -> Result<String, AllocError> {
    String::from_str(alloc, if flag { "yes " } else { "no " })
}

// One step with the variables of a sequence.
fn local_step(alloc: Global, locals: &mut Locals<u64>, step: &str) -> Result<String, AllocError> {
    let (verb, name, value) = step_words(step);
    match verb {
        "declare" => locals.add(alloc, name, value).map_err(no_memory)?,
        "set" => return flag_text(alloc, locals.set(name, value)),
        "keep" => locals.truncate(index_in(name)),
        "count" => return format!(in alloc; "{} ", locals.len()),
        "get" => return value_text(alloc, locals.get(name)),
        _ => return String::from_str(alloc, "? "),
    }
    Ok(String::new(alloc))
}

/// What comes of steps with the variables of a sequence.
pub(crate) fn locals_text(alloc: Global, steps: &str) -> Result<String, AllocError> {
    let mut locals = Locals::new(alloc);
    let mut text = String::new(alloc);
    for step in steps.split(", ") {
        text.push_str(local_step(alloc, &mut locals, step)?.as_str())?;
    }
    String::from_str(alloc, text.as_str().trim())
}

// The variable at an index.
fn at_text(alloc: Global, globals: &Globals<u64>, index: usize) -> Result<String, AllocError> {
    match globals.at(index) {
        Some((name, value)) => format!(in alloc; "{name}={value} "),
        None => String::from_str(alloc, "none "),
    }
}

// One step with the variables that all sequences share.
fn global_step(
    alloc: Global,
    globals: &mut Globals<u64>,
    step: &str,
) -> Result<String, AllocError> {
    let (verb, name, value) = step_words(step);
    match verb {
        "add" => globals.add(alloc, name, value).map_err(no_memory)?,
        "set" => globals.set(name, value),
        "count" => return format!(in alloc; "{} ", globals.len()),
        "get" => return value_text(alloc, globals.get(name)),
        "has" => return flag_text(alloc, globals.has(name)),
        "at" => return at_text(alloc, globals, index_in(name)),
        _ => return String::from_str(alloc, "? "),
    }
    Ok(String::new(alloc))
}

/// What comes of steps with the variables that all sequences share.
pub(crate) fn globals_text(alloc: Global, steps: &str) -> Result<String, AllocError> {
    let mut globals = Globals::new(alloc);
    let mut text = String::new(alloc);
    for step in steps.split(", ") {
        text.push_str(global_step(alloc, &mut globals, step)?.as_str())?;
    }
    String::from_str(alloc, text.as_str().trim())
}
