//! The program: it makes the real source and sink, and calls `dapseq_faults`.
#![tactic(auto)]

use dap_base::{OutOfMemory, ReadSource, WriteSink};
use faults_tool::{FaultsStatus, dapseq_faults};
use program_arguments::read_words;
use std::io;
use std::process::ExitCode;

fn main(rt: HostRuntime) -> ExitCode {
    let alloc = rt.alloc();
    let status = match read_words(&rt, alloc) {
        Ok(words) => {
            let mut source = ReadSource::new(rt.reader());
            let mut sink = WriteSink::new(io::writer(&rt));
            dapseq_faults(alloc, &words, &mut source, &mut sink)
        }
        Err(OutOfMemory) => FaultsStatus::OutOfMemory,
    };
    ExitCode::from(status.code())
}
