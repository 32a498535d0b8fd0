//! Tries the rows of the table of packs: their sets, and their faults with the sets that have them.
#![tactic(auto)]

mod packs;

use std::alloc::{AllocError, Global};
use std::io;
use test_tables::{Row, Tally, table_of};

// What comes of a row, whose input is text.
fn answer(alloc: Global, row: &Row) -> Result<String, AllocError> {
    match str::from_utf8(row.input.as_slice()) {
        Ok(text) => packs::faults(alloc, text, row.form.as_str()),
        Err(_) => String::from_str(alloc, "no text\n"),
    }
}

// Tries the rows of a table. What is expected is lines, the last of which ends as the others do.
fn try_table(rt: &HostRuntime, name: &str) -> io::Result<()> {
    let mut tally = Tally::new();
    for mut row in table_of(rt, name)? {
        row.expected.push(b'\n')?;
        let written = answer(rt.alloc(), &row)?;
        tally.compare(rt, name, &row, written.as_bytes())?;
    }
    tally.print(rt, name)
}

fn main(rt: HostRuntime) -> io::Result<()> {
    for name in rt.lines(rt.alloc()) {
        try_table(&rt, name?.as_str())?;
    }
    Ok(())
}
