//! Tries the rows of the tables that standard input names: what is read of jobs, and what is written of checks and of runs.
#![tactic(auto)]

mod checks;
mod exchanges;
mod images;
mod options;
mod reading;
mod reports;

use options::options_of;
use std::alloc::{AllocError, Global};
use std::io;
use test_tables::{Row, Tally, table_of};

// What comes of a job or of the name of a line, where the words of the form are options.
fn check_row(alloc: Global, kind: &str, words: &str, input: &[u8]) -> Result<Vec<u8>, AllocError> {
    let options = options_of(alloc, words)?;
    match kind {
        "check" => checks::check_job(alloc, input, &options),
        "run" => checks::run(alloc, input, &options),
        "line" => checks::line(alloc, input, &options),
        _ => Vec::from_slice(alloc, b"no such form\n"),
    }
}

// What comes of a row: the first word of its form says what is done with the input.
fn answer(alloc: Global, row: &Row) -> Result<Vec<u8>, AllocError> {
    let form = row.form.as_str();
    let (kind, words) = form.split_once(' ').unwrap_or((form, ""));
    let input = row.input.as_slice();
    match kind {
        "trees" => checks::trees(alloc, input, words),
        "read" => reading::read(alloc, input),
        "values" => reading::values(alloc, input),
        "image" => images::image(alloc, input),
        "filled" => images::fill_image(alloc, input),
        "report" => reports::report_run(alloc, input),
        "write" => exchanges::write(alloc, input),
        _ => check_row(alloc, kind, words, input),
    }
}

// Tries the rows of a table. What is expected is lines, the last of which ends as the others do.
fn try_table(rt: &HostRuntime, name: &str) -> io::Result<()> {
    let mut tally = Tally::new();
    for mut row in table_of(rt, name)? {
        row.expected.push(b'\n')?;
        let written = answer(rt.alloc(), &row)?;
        tally.compare(rt, name, &row, written.as_slice())?;
    }
    tally.print(rt, name)
}

fn main(rt: HostRuntime) -> io::Result<()> {
    for name in rt.lines(rt.alloc()) {
        try_table(&rt, name?.as_str())?;
    }
    Ok(())
}
