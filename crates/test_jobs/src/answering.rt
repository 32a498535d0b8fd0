//! Whole calls of the program over objects in memory.

use dap_base::{MemorySink, MemorySource, NameText, OutOfMemory, Words};
use dapseq_tool::{InMemory, Status, dapseq, dapseq_in_memory, dapseq_over};
use packed_access::Single;
use probe_core::{FaultyBench, MemoryBench, SilentBench};
use std::alloc::Global;

/// The numbers of the calls that fail, from 1, of each object of a run.
#[derive(Clone, Copy)]
pub struct Failing<'a> {
    /// Those of the source.
    pub source: &'a [u32],
    /// Those of the sink.
    pub sink: &'a [u32],
    /// Those of the bench.
    pub bench: &'a [u32],
}

/// The words of a command line, one a line. An error where memory is refused.
pub fn words_of(alloc: Global, text: &str) -> Result<Words, OutOfMemory> {
    let mut words = Words::new(alloc);
    for line in text.lines() {
        words.push(NameText::new(alloc, line)?)?;
    }
    Ok(words)
}

/// How the program ends with these words and this job in memory, and what it writes. An error where memory is refused.
pub fn answer(
    alloc: Global,
    words: &Words,
    job: &[u8],
) -> Result<(Status, MemorySink), OutOfMemory> {
    let InMemory { status, sink, .. } = dapseq_in_memory(alloc, words, job)?;
    Ok((status, sink))
}

/// The same where some calls of its objects fail.
pub fn answer_where_calls_fail(
    alloc: Global,
    words: &Words,
    job: &[u8],
    failing: Failing<'_>,
) -> Result<(Status, MemorySink), OutOfMemory> {
    let mut source = MemorySource::new(alloc, job, failing.source)?;
    let mut sink = MemorySink::new(alloc, failing.sink)?;
    let mut bench = FaultyBench::new(alloc, failing.bench)?;
    let status = dapseq(alloc, words, &mut source, &mut sink, &mut bench);
    Ok((status, sink))
}

/// The same where no call fails, over a bench that is not observable.
pub fn answer_over_silent(
    alloc: Global,
    words: &Words,
    job: &[u8],
) -> Result<(Status, MemorySink), OutOfMemory> {
    let mut source = MemorySource::new(alloc, job, &[])?;
    let mut sink = MemorySink::new(alloc, &[])?;
    let mut bench = SilentBench::new(alloc);
    let status = dapseq(alloc, words, &mut source, &mut sink, &mut bench);
    Ok((status, sink))
}

/// The same over a bench in memory, by the access that sends each register access by itself.
pub fn answer_by_single(
    alloc: Global,
    words: &Words,
    job: &[u8],
) -> Result<(Status, MemorySink), OutOfMemory> {
    let mut source = MemorySource::new(alloc, job, &[])?;
    let mut sink = MemorySink::new(alloc, &[])?;
    let bench = MemoryBench::new(alloc);
    let over = dapseq_over::<MemorySource, MemorySink, MemoryBench, Single<MemoryBench>>(
        alloc,
        words,
        &mut source,
        &mut sink,
        bench,
    );
    Ok((over.status, sink))
}
