//! Operators, lines, polls and turns.
use crate::reading::{head_and_text, no_memory, number_in, numbers_in, word_in};
use dap_base::{ItemList, OutOfMemory, number};
use expr_grammar::{BinaryOp, Expr, binary_value, parse_code, parse_expr, tokens};
use sequence_rules::{
    load_line, message_line, poll_of, query_line, text_of, turn_count, value_line,
};
use sequence_trees::{CheckedStep, CheckedSteps};
use std::alloc::{AllocError, Global};
use text_lines::Line;

fn none(alloc: Global) -> Result<String, AllocError> {
    String::from_str(alloc, "none")
}

fn expr(alloc: Global, text: &str) -> Option<Expr> {
    let found = tokens(alloc, text).ok()?;
    parse_expr(alloc, &found).ok()
}

fn number_of(expr: &Expr) -> u64 {
    match expr {
        Expr::Number(number) => *number,
        _ => 0,
    }
}

// An operator and its two operands, which are numbers.
fn operation(alloc: Global, text: &str) -> Option<(BinaryOp, u64, u64)> {
    match expr(alloc, text)? {
        Expr::Binary(op, left, right) => Some((op, number_of(&left), number_of(&right))),
        _ => None,
    }
}

/// The value of an operator between two numbers.
pub(crate) fn operator_text(alloc: Global, text: &str) -> Result<String, AllocError> {
    let Some((op, left, right)) = operation(alloc, text) else {
        return String::from_str(alloc, "no operator");
    };
    match binary_value(op, left, right) {
        Some(value) => format!(in alloc; "0x{value:x}"),
        None => none(alloc),
    }
}

// The line of a function, with these numbers and this text.
fn line_of(alloc: Global, kind: &str, numbers: &[u64], text: &str) -> Result<Line, OutOfMemory> {
    match (kind, numbers) {
        ("message", [kind, more @ ..]) => message_line(alloc, *kind, text, more),
        ("query", [kind, default]) => query_line(alloc, *kind, text, *default),
        ("value", [default]) => value_line(alloc, text, *default),
        ("load", []) => load_line(alloc, text),
        _ => Line::begin(alloc, "there is no such line"),
    }
}

/// The line of a function: its kind, numbers, and after `"` its text.
pub(crate) fn line_text(alloc: Global, input: &str) -> Result<String, AllocError> {
    let (head, text) = head_and_text(input);
    let (kind, numbers) = head.split_once(' ').unwrap_or((head, ""));
    let numbers = numbers_in(alloc, numbers)?;
    let line = line_of(alloc, kind, numbers.as_slice(), text).map_err(no_memory)?;
    String::from_str(alloc, str::from_utf8(line.as_bytes()).unwrap_or("no text"))
}

// The mask and the value of the poll that a `while` with this condition and these steps is.
fn shown_poll(alloc: Global, text: &str, steps: &[CheckedStep]) -> Result<String, AllocError> {
    let Some(condition) = expr(alloc, text) else {
        return String::from_str(alloc, "no expression");
    };
    match poll_of(&condition, steps) {
        Some((mask, value)) => format!(in alloc; "mask 0x{mask:x} value 0x{value:x}"),
        None => none(alloc),
    }
}

/// The poll that a `while` without steps is.
pub(crate) fn poll_text(alloc: Global, text: &str) -> Result<String, AllocError> {
    shown_poll(alloc, text, &[])
}

// A block without statements.
fn one_block(alloc: Global) -> Option<CheckedSteps> {
    let found = tokens(alloc, "").ok()?;
    let code = parse_code(alloc, &found).ok()?;
    let mut steps = ItemList::new(alloc);
    steps.push(CheckedStep::Block(code)).ok()?;
    Some(steps)
}

/// The poll that a `while` with a block is.
pub(crate) fn poll_with_steps_text(alloc: Global, text: &str) -> Result<String, AllocError> {
    match one_block(alloc) {
        Some(steps) => shown_poll(alloc, text, steps.as_slice()),
        None => Err(AllocError),
    }
}

/// How many turns of so many microseconds there are until a timeout, which may be none.
pub(crate) fn turns_text(alloc: Global, text: &str) -> Result<String, AllocError> {
    let (turn, timeout) = text.split_once(' ').unwrap_or((text, ""));
    let turn_us = word_in(turn);
    if turn_us == 0 {
        return String::from_str(alloc, "no turn");
    }
    let turns = turn_count(turn_us, number(timeout));
    format!(in alloc; "{turns}")
}

/// The first text among the arguments of a call.
pub(crate) fn first_text(alloc: Global, text: &str) -> Result<String, AllocError> {
    match expr(alloc, text) {
        Some(Expr::Call(_, args)) => String::from_str(alloc, text_of(args.as_slice())),
        _ => String::from_str(alloc, "no call"),
    }
}
