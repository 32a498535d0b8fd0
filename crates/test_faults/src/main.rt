//! Tries the rows of the tables of calls of `dapseq_faults` that standard input names. After the word `case` it tries stored jobs, with
//! their words and texts. After the word `failing` it tries the same once for each call of the source and the sink, which fails.
#![tactic(auto)]

use dap_base::{MemorySink, MemorySource, Words};
use faults_tool::dapseq_faults;
use std::alloc::Global;
use std::io;
use test_calls::{Program, call_row, run_case, run_failing};
use test_tables::{Tally, table_of};

// The program `dapseq_faults`.
struct Faults;

impl Program for Faults {
    fn call(alloc: Global, words: &Words, source: &mut MemorySource, sink: &mut MemorySink) -> u8 {
        dapseq_faults(alloc, words, source, sink).code()
    }
}

// Tries the rows of a table, whose forms are `call` and words. What is expected is lines, the last of which ends as the others do.
fn try_table(rt: &HostRuntime, name: &str) -> io::Result<()> {
    let mut tally = Tally::new();
    for mut row in table_of(rt, name)? {
        row.expected.push(b'\n')?;
        let words = row.form.as_str().strip_prefix("call").unwrap_or("");
        let written = call_row::<Faults>(rt.alloc(), words, &row)?;
        tally.compare(rt, name, &row, written.as_slice())?;
    }
    tally.print(rt, name)
}

fn main(rt: HostRuntime) -> io::Result<()> {
    for line in rt.lines(rt.alloc()) {
        let line = line?;
        let line = line.as_str();
        if let Some(name) = line.strip_prefix("failing ") {
            run_failing::<Faults>(&rt, name)?;
        } else if let Some(name) = line.strip_prefix("case ") {
            run_case::<Faults>(&rt, name)?;
        } else {
            try_table(&rt, line)?;
        }
    }
    Ok(())
}
