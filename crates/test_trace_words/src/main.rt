//! Tries the rows of the tables that standard input names: traces, and their words.
#![tactic(auto)]

mod file;

use dap_base::{MemorySink, MemorySource, NameText, OutOfMemory, Words};
use file::MemoryFile;
use std::alloc::Global;
use std::io;
use test_tables::{Row, Tally, table_of};
use trace_compare::{CompareStatus, FileSource, dapseq_words};

// What parts the two traces of a row.
const PARTED: &[u8] = b"AGAINST\n";

// How a call ended.
fn status_text(status: CompareStatus) -> &'static str {
    match status {
        CompareStatus::Done => "status 0\n",
        CompareStatus::Wrong => "status 1\n",
        CompareStatus::Usage => "status 2\n",
        CompareStatus::ReadFault => "status 5\n",
        CompareStatus::FileFault => "status 5 of the file\n",
        CompareStatus::NotOpened => "status 5 without the file\n",
        CompareStatus::WriteFault => "status 6\n",
        CompareStatus::OutOfMemory => "status 7\n",
    }
}

// The words of a row: those of its form.
fn words_of(alloc: Global, form: &str) -> Result<Words, OutOfMemory> {
    let mut words = Words::new(alloc);
    for word in form.split_whitespace() {
        words.push(NameText::new(alloc, word)?)?;
    }
    Ok(words)
}

// The two traces of a row.
fn traces_of(input: &[u8]) -> (&[u8], &[u8]) {
    for at in 0..input.len() {
        let (front, rest) = input.split_at(at);
        if rest.starts_with(PARTED) {
            return (front, &rest[PARTED.len()..]);
        }
    }
    (input, &[])
}

// Makes the call of a row. A name with a dot is that of a file of the folder that the program runs in.
fn call(rt: &HostRuntime, row: &Row, sink: &mut MemorySink) -> Result<CompareStatus, OutOfMemory> {
    let alloc = rt.alloc();
    let words = words_of(alloc, row.form.as_str())?;
    let (trace, against) = traces_of(row.input.as_slice());
    let mut source = MemorySource::new(alloc, trace, &[])?;
    if row.form.as_str().contains('.') {
        let mut file = FileSource::new(rt);
        return Ok(dapseq_words(alloc, &words, &mut source, &mut file, sink));
    }
    let mut file = MemoryFile::new(alloc, against)?;
    Ok(dapseq_words(alloc, &words, &mut source, &mut file, sink))
}

// What comes of a row: what is written, and how the call ended.
fn answer(rt: &HostRuntime, row: &Row) -> io::Result<Vec<u8>> {
    let alloc = rt.alloc();
    let Ok(mut sink) = MemorySink::new(alloc, &[]) else {
        return Ok(Vec::from_slice(alloc, b"out of memory\n")?);
    };
    let Ok(status) = call(rt, row, &mut sink) else {
        return Ok(Vec::from_slice(alloc, b"out of memory\n")?);
    };
    let mut written = Vec::from_slice(alloc, sink.bytes())?;
    written.extend_from_slice(status_text(status).as_bytes())?;
    Ok(written)
}

// Tries the rows of a table. What is expected is lines, the last of which ends as the others do.
fn try_table(rt: &HostRuntime, name: &str) -> io::Result<()> {
    let mut tally = Tally::new();
    for mut row in table_of(rt, name)? {
        row.expected.push(b'\n')?;
        let written = answer(rt, &row)?;
        tally.compare(rt, name, &row, written.as_slice())?;
    }
    tally.print(rt, name)
}

fn main(rt: HostRuntime) -> io::Result<()> {
    for name in rt.lines(rt.alloc()) {
        try_table(&rt, name?.as_str())?;
    }
    Ok(())
}
