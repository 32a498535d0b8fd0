//! A program whose calls are tested, and its calls over objects in memory.

use dap_base::{MemorySink, MemorySource, NameText, OutOfMemory, Words};
use std::alloc::Global;

/// A program that takes words, reads a source, and writes into a sink.
pub trait Program {
    /// Makes a call, and answers its exit status.
    fn call(alloc: Global, words: &Words, source: &mut MemorySource, sink: &mut MemorySink) -> u8;
}

/// The words of a text, between which are blanks or line feeds. An error where memory is refused.
pub fn words_in(alloc: Global, text: &str) -> Result<Words, OutOfMemory> {
    let mut words = Words::new(alloc);
    for word in text.split_whitespace() {
        words.push(NameText::new(alloc, word)?)?;
    }
    Ok(words)
}

/// The exit status of a call, and what it writes, where the calls of the source and of the sink with these numbers, from 1, fail. An
/// error where memory is refused for the objects.
pub fn answer<P: Program>(
    alloc: Global,
    words: &Words,
    job: &[u8],
    source: &[u32],
    sink: &[u32],
) -> Result<(u8, MemorySink), OutOfMemory> {
    let mut source = MemorySource::new(alloc, job, source)?;
    let mut sink = MemorySink::new(alloc, sink)?;
    let status = P::call(alloc, words, &mut source, &mut sink);
    Ok((status, sink))
}
