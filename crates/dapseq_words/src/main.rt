//! The program: it makes the real source, file and sink, and calls `dapseq_words`.
#![tactic(auto)]

use dap_base::{OutOfMemory, ReadSource, WriteSink};
use program_arguments::read_words;
use std::io;
use std::process::ExitCode;
use trace_compare::{CompareStatus, FileSource, dapseq_words};

fn main(rt: HostRuntime) -> ExitCode {
    let alloc = rt.alloc();
    let status = match read_words(&rt, alloc) {
        Ok(words) => {
            let mut source = ReadSource::new(rt.reader());
            let mut file = FileSource::new(&rt);
            let mut sink = WriteSink::new(io::writer(&rt));
            dapseq_words(alloc, &words, &mut source, &mut file, &mut sink)
        }
        Err(OutOfMemory) => CompareStatus::OutOfMemory,
    };
    ExitCode::from(status.code())
}
