//! The first fault of statements, and texts that are read as code or as conditions.
use crate::grammar::{code_of, fault_line};
use code_check::{CodeFault, Names, block_fault};
use dap_base::{OutOfMemory, Place};
use expr_grammar::Stmt;
use sequence_trees::{TextFault, read_code, read_condition};
use std::alloc::{AllocError, Global};

// The name Main alone.
fn main_alone(alloc: Global) -> Result<Names, OutOfMemory> {
    let mut names = Names::new(alloc);
    names.add(alloc, "Main")?;
    Ok(names)
}

// The first fault of statements, where the predefined variables and the sequence Main are visible.
fn fault_of(
    alloc: Global,
    in_debugvars: bool,
    code: &[Stmt],
) -> Result<Option<CodeFault>, OutOfMemory> {
    let mut names = Names::predefined_names(alloc)?;
    let sequences = main_alone(alloc)?;
    block_fault(alloc, &mut names, &sequences, in_debugvars, code)
}

// The line of the first fault, or `none`.
fn first_line(alloc: Global, found: Option<CodeFault>) -> Result<String, AllocError> {
    match found {
        Some(CodeFault { kind, place }) => {
            format!(in alloc; "{kind:?} {}:{}\n", place.line, place.column)
        }
        None => String::from_str(alloc, "none\n"),
    }
}

/// The first fault of statements, with its line and column, or `none`: of a block, where the predefined variables and the
/// sequence Main are visible, or of the debug variables.
pub fn first_fault(alloc: Global, text: &str, in_debugvars: bool) -> Result<String, AllocError> {
    match code_of(alloc, text) {
        Ok(code) => match fault_of(alloc, in_debugvars, code.as_slice()) {
            Ok(found) => first_line(alloc, found),
            Err(OutOfMemory) => Err(AllocError),
        },
        Err(fault) => fault_line(alloc, fault),
    }
}

// The line of a fault of a text.
fn text_fault_line(alloc: Global, fault: TextFault) -> Result<String, AllocError> {
    match fault {
        TextFault::Syntax(Place { line, column }) => {
            format!(in alloc; "Syntax {line}:{column}\n")
        }
        TextFault::OutOfMemory => Err(AllocError),
    }
}

/// How many statements a text has that is read as code.
pub fn code(alloc: Global, text: &str) -> Result<String, AllocError> {
    match read_code(alloc, text) {
        Ok(code) => format!(in alloc; "{} statements\n", code.len()),
        Err(fault) => text_fault_line(alloc, fault),
    }
}

/// `condition` of a text that is read as one.
pub fn condition(alloc: Global, text: &str) -> Result<String, AllocError> {
    match read_condition(alloc, text) {
        Ok(_) => String::from_str(alloc, "condition\n"),
        Err(fault) => text_fault_line(alloc, fault),
    }
}
