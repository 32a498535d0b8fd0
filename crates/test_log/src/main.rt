//! Tries the rows of the tables of calls of `dapseq_log` and of its words that standard input names. After the word `case` it tries stored
//! jobs, with their words and texts. After the word `failing` it tries the same once for each call of the source and the sink, which fails.
#![tactic(auto)]

mod asked;

use asked::asked_text;
use dap_base::{MemorySink, MemorySource, Words};
use log_tool::dapseq_log;
use std::alloc::{AllocError, Global};
use std::io;
use test_calls::{Program, call_row, run_case, run_failing};
use test_tables::{Row, Tally, table_of};

// The program `dapseq_log`.
struct Log;

impl Program for Log {
    fn call(alloc: Global, words: &Words, source: &mut MemorySource, sink: &mut MemorySink) -> u8 {
        dapseq_log(alloc, words, source, sink).code()
    }
}

// What comes of a row: of the form `call` and words the text that is written and the status, of the form `words` what the words of the
// row ask for.
fn try_row(alloc: Global, row: &Row) -> Result<Vec<u8>, AllocError> {
    match row.form.as_str().strip_prefix("call") {
        Some(words) => call_row::<Log>(alloc, words, row),
        None => asked_text(alloc, row.input.as_slice()),
    }
}

// Tries the rows of a table. What is expected is lines, the last of which ends as the others do.
fn try_table(rt: &HostRuntime, name: &str) -> io::Result<()> {
    let mut tally = Tally::new();
    for mut row in table_of(rt, name)? {
        row.expected.push(b'\n')?;
        let written = try_row(rt.alloc(), &row)?;
        tally.compare(rt, name, &row, written.as_slice())?;
    }
    tally.print(rt, name)
}

fn main(rt: HostRuntime) -> io::Result<()> {
    for line in rt.lines(rt.alloc()) {
        let line = line?;
        let line = line.as_str();
        if let Some(name) = line.strip_prefix("failing ") {
            run_failing::<Log>(&rt, name)?;
        } else if let Some(name) = line.strip_prefix("case ") {
            run_case::<Log>(&rt, name)?;
        } else {
            try_table(&rt, line)?;
        }
    }
    Ok(())
}
