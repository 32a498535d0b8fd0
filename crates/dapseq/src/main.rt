//! The program: it makes the real source, sink and bench, and calls `dapseq`.
#![tactic(auto)]

use dap_base::{OutOfMemory, ReadSource, WriteSink};
use dapseq_tool::{Status, dapseq};
use probe_core::MemoryBench;
use program_arguments::read_words;
use std::io;
use std::process::ExitCode;

fn main(rt: HostRuntime) -> ExitCode {
    let alloc = rt.alloc();
    let status = match read_words(&rt, alloc) {
        Ok(words) => {
            let mut source = ReadSource::new(rt.reader());
            let mut sink = WriteSink::new(io::writer(&rt));
            let mut bench = MemoryBench::new(alloc);
            dapseq(alloc, &words, &mut source, &mut sink, &mut bench)
        }
        Err(OutOfMemory) => Status::OutOfMemory,
    };
    ExitCode::from(status.code())
}
