//! Names and values read from a text, written as a text, and put into the text of debug variables.
use dap_base::Place;
use dbgconf_text::{Conf, ConfFault, ConfItem, ReplaceFault, conf_of, conf_text, replace};
use std::alloc::{AllocError, Global};

// The line of why a text is no list of names and values.
fn fault_line(alloc: Global, fault: ConfFault) -> Result<String, AllocError> {
    let (word, at) = match fault {
        ConfFault::BadToken(at) => ("BadToken", at),
        ConfFault::Unexpected(at) => ("Unexpected", at),
        ConfFault::Repeated(at) => ("Repeated", at),
        ConfFault::OutOfMemory => return Err(AllocError),
    };
    let (line, column) = (at.line, at.column);
    format!(in alloc; "{word} {line}:{column}\n")
}

// A name, its value, and its line and column.
fn item_line(alloc: Global, item: &ConfItem) -> Result<String, AllocError> {
    let (name, value) = (item.name.text.as_str(), item.value);
    let (line, column) = (item.name.at.line, item.name.at.column);
    format!(in alloc; "{name} {value} {line}:{column}\n")
}

// A line for each name.
fn item_lines(alloc: Global, conf: &[ConfItem]) -> Result<String, AllocError> {
    let mut lines = String::new(alloc);
    for item in conf {
        let line = item_line(alloc, item)?;
        lines.push_str(line.as_str())?;
    }
    Ok(lines)
}

/// The names and values of a text with their places, or `no names`, or the fault.
pub fn read(alloc: Global, text: &str) -> Result<String, AllocError> {
    match conf_of(alloc, text) {
        Ok(conf) if conf.is_empty() => String::from_str(alloc, "no names\n"),
        Ok(conf) => item_lines(alloc, conf.as_slice()),
        Err(fault) => fault_line(alloc, fault),
    }
}

/// The names and values of a text as they are written, or the fault.
pub fn write_values(alloc: Global, text: &str) -> Result<String, AllocError> {
    match conf_of(alloc, text) {
        Ok(conf) => match conf_text(alloc, &conf) {
            Ok(text) => String::from_str(alloc, text.as_str()),
            Err(_) => Err(AllocError),
        },
        Err(fault) => fault_line(alloc, fault),
    }
}

// A text with the values, or the first name that it does not declare.
fn replaced_by(alloc: Global, debugvars: &str, conf: &Conf) -> Result<String, AllocError> {
    match replace(alloc, debugvars, conf) {
        Ok(text) => format!(in alloc; "{}\n", text.as_str()),
        Err(ReplaceFault::UndefinedName(Place { line, column })) => {
            format!(in alloc; "UndefinedName {line}:{column}\n")
        }
        Err(ReplaceFault::OutOfMemory) => Err(AllocError),
    }
}

/// The text before a tab with the names and values after it, or the fault.
pub fn replace_values(alloc: Global, text: &str) -> Result<String, AllocError> {
    let (debugvars, values) = text.split_once('\t').unwrap_or((text, ""));
    match conf_of(alloc, values) {
        Ok(conf) => replaced_by(alloc, debugvars, &conf),
        Err(fault) => fault_line(alloc, fault),
    }
}
