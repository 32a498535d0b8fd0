//! Tables of tests of the crates that all others stand on: each row is tried as its form says.
#![tactic(auto)]

mod commands;
mod functions;
mod graphs;
mod lines;
mod members;
mod packs;
mod texts;

use std::alloc::{AllocError, Global};
use std::io;
use test_tables::{Row, Tally, table_of};

// What comes of an input, by the form of its row.
fn try_row(alloc: Global, form: &str, input: &str) -> Result<String, AllocError> {
    match form {
        "number" => texts::number_text(alloc, input),
        "list" => texts::list_text(alloc, input),
        "line" => lines::line_text(alloc, input),
        "member" => members::member_text(alloc, input),
        "pack" => packs::pack_text(alloc, input),
        "function" => functions::function_text(alloc, input),
        "kind of result" => functions::result_text(alloc, input),
        "takes" => functions::takes_text(alloc, input),
        "kind of argument" => functions::kind_text(alloc, input),
        "conversions" => functions::conversions_text(alloc, input),
        "front piece" => functions::front_text(alloc, input),
        "first cycle" => graphs::cycle_text(alloc, input),
        "first deep" => graphs::deep_text(alloc, input),
        "ranks" => graphs::ranks_text(alloc, input),
        "nodes" => graphs::nodes_text(alloc, input),
        "callees" => graphs::callees_text(alloc, input),
        "command" => commands::command_text(alloc, input),
        "no words" => commands::no_words_text(alloc),
        _ => String::from_str(alloc, "there is no such form"),
    }
}

// What comes of a row, whose input is text.
fn tried_row(alloc: Global, row: &Row) -> Result<String, AllocError> {
    match str::from_utf8(row.input.as_slice()) {
        Ok(input) => try_row(alloc, row.form.as_str(), input),
        Err(_) => String::from_str(alloc, "the input is no text"),
    }
}

fn try_table(rt: &HostRuntime, name: &str) -> io::Result<()> {
    let mut tally = Tally::new();
    for row in table_of(rt, name)?.as_slice() {
        let text = tried_row(rt.alloc(), row)?;
        tally.compare(rt, name, row, text.as_bytes())?;
    }
    tally.print(rt, name)
}

fn main(rt: HostRuntime) -> io::Result<()> {
    for line in rt.lines(rt.alloc()) {
        let line = line?;
        try_table(&rt, line.as_str())?;
    }
    Ok(())
}
