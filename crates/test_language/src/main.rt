//! Tries the rows of the tables that standard input names: the sequence language, starting values of debug variables, the levels of a pack, and sets of sequences.
#![tactic(auto)]

mod conf;
mod grammar;
mod levels;
mod sets;
mod texts;

use std::alloc::{AllocError, Global};
use std::io;
use test_tables::{Row, Tally, table_of};

// What comes of a text of the grammar.
fn grammar_of(alloc: Global, kind: &str, text: &str) -> Result<String, AllocError> {
    match kind {
        "tokens" => grammar::token_lines(alloc, text),
        "statements" => grammar::statements(alloc, text),
        "expression" => grammar::expression(alloc, text),
        "trees" => grammar::trees(alloc, text),
        "tree" => grammar::tree(alloc, text),
        "value" => grammar::value(alloc, text),
        _ => String::from_str(alloc, "no such form\n"),
    }
}

// What comes of a text of names and values.
fn conf_of(alloc: Global, kind: &str, text: &str) -> Result<String, AllocError> {
    match kind {
        "conf" => conf::read(alloc, text),
        "conf_text" => conf::write_values(alloc, text),
        "replace" => conf::replace_values(alloc, text),
        _ => grammar_of(alloc, kind, text),
    }
}

// What comes of a text whose form is one word.
fn text_of(alloc: Global, kind: &str, text: &str) -> Result<String, AllocError> {
    match kind {
        "block" => texts::first_fault(alloc, text, false),
        "debugvars" => texts::first_fault(alloc, text, true),
        "code" => texts::code(alloc, text),
        "condition" => texts::condition(alloc, text),
        _ => conf_of(alloc, kind, text),
    }
}

// What comes of a text, as the form says.
fn answer_of(alloc: Global, form: &str, text: &str) -> Result<String, AllocError> {
    let (kind, words) = form.split_once(' ').unwrap_or((form, ""));
    match kind {
        "levels" => levels::levels(alloc, text, words),
        "read" => levels::read(alloc, text, words),
        "check" => sets::check_text(alloc, text, words),
        "faults" => sets::faults(alloc, text, words),
        _ => text_of(alloc, kind, text),
    }
}

// What comes of a row, whose input is text.
fn answer(alloc: Global, row: &Row) -> Result<String, AllocError> {
    match str::from_utf8(row.input.as_slice()) {
        Ok(text) => answer_of(alloc, row.form.as_str(), text),
        Err(_) => String::from_str(alloc, "no text\n"),
    }
}

// Tries the rows of a table. What is expected is lines, the last of which ends as the others do.
fn try_table(rt: &HostRuntime, name: &str) -> io::Result<()> {
    let mut tally = Tally::new();
    for mut row in table_of(rt, name)? {
        row.expected.push(b'\n')?;
        let written = answer(rt.alloc(), &row)?;
        tally.compare(rt, name, &row, written.as_bytes())?;
    }
    tally.print(rt, name)
}

fn main(rt: HostRuntime) -> io::Result<()> {
    for name in rt.lines(rt.alloc()) {
        try_table(&rt, name?.as_str())?;
    }
    Ok(())
}
