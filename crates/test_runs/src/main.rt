//! Tables of tests of what calls and variables mean, and of calls and of runs over an access whose results are given: each row is tried
//! as its form says. Then whole jobs by the direct runner.
#![tactic(auto)]

mod calls;
mod ends;
mod given;
mod jobs;
mod outcomes;
mod reading;
mod runs;
mod sets;
mod shown;
mod terms;
mod variables;

use std::alloc::{AllocError, Global};
use std::io;
use test_tables::{Row, Tally, table_of};

// What comes of an input, by the form of its row.
fn try_row(alloc: Global, form: &str, input: &str) -> Result<String, AllocError> {
    match form {
        "operator" => terms::operator_text(alloc, input),
        "line" => terms::line_text(alloc, input),
        "poll" => terms::poll_text(alloc, input),
        "poll with steps" => terms::poll_with_steps_text(alloc, input),
        "turns" => terms::turns_text(alloc, input),
        "text" => terms::first_text(alloc, input),
        "locals" => variables::locals_text(alloc, input),
        "globals" => variables::globals_text(alloc, input),
        "call" => calls::call_text(alloc, input),
        "number of" => calls::number_of_text(alloc, input),
        "both" => calls::both_text(alloc, input),
        "numbers of" => calls::numbers_of_text(alloc, input),
        "run" => runs::run_text(alloc, input),
        _ => String::from_str(alloc, "there is no such form"),
    }
}

// What comes of a row, whose input is text.
fn tried_row(alloc: Global, row: &Row) -> Result<String, AllocError> {
    match str::from_utf8(row.input.as_slice()) {
        Ok(input) => try_row(alloc, row.form.as_str(), input),
        Err(_) => String::from_str(alloc, "the input is no text"),
    }
}

fn try_table(rt: &HostRuntime, name: &str) -> io::Result<()> {
    let mut tally = Tally::new();
    for row in table_of(rt, name)?.as_slice() {
        let text = tried_row(rt.alloc(), row)?;
        tally.compare(rt, name, row, text.as_bytes())?;
    }
    tally.print(rt, name)
}

fn main(rt: HostRuntime) -> io::Result<()> {
    for line in rt.lines(rt.alloc()) {
        let line = line?;
        match line.strip_prefix("job ") {
            Some(job) => jobs::run_named(&rt, job)?,
            None => try_table(&rt, line.as_str())?,
        }
    }
    Ok(())
}
