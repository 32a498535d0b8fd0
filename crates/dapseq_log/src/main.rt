//! The program: it makes the real source and sink, and calls `dapseq_log`.
#![tactic(auto)]

use dap_base::{OutOfMemory, ReadSource, WriteSink};
use log_tool::{LogStatus, dapseq_log};
use program_arguments::read_words;
use std::io;
use std::process::ExitCode;

fn main(rt: HostRuntime) -> ExitCode {
    let alloc = rt.alloc();
    let status = match read_words(&rt, alloc) {
        Ok(words) => {
            let mut source = ReadSource::new(rt.reader());
            let mut sink = WriteSink::new(io::writer(&rt));
            dapseq_log(alloc, &words, &mut source, &mut sink)
        }
        Err(OutOfMemory) => LogStatus::OutOfMemory,
    };
    ExitCode::from(status.code())
}
