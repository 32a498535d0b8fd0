//! Accesses over the benches that forms name.

use crate::over::{Over, begin};
use bench_flights::{Alone, Wire};
use probe_core::{FaultyBench, Limits, MemoryBench};
use std::alloc::Global;
use test_benches::{Scripted, failing_bench, job_of, memory_bench, scripted_bench};
use test_words::{BenchKind, RowError, Setting, Trial, setting_of_form};

/// An access over a bench, with which the rows of a form are tried one after the other. The last three send each register access by
/// itself.
#[derive(Drop)]
pub enum AnyAccess {
    /// Over a bench in memory.
    Memory(Over<MemoryBench, Wire<MemoryBench>>),
    /// Over one some of whose calls fail.
    Failing(Over<FaultyBench, Wire<FaultyBench>>),
    /// Over one whose replies are given.
    Answering(Over<Scripted, Wire<Scripted>>),
    /// Over a bench in memory.
    MemoryAlone(Over<MemoryBench, Alone<MemoryBench>>),
    /// Over one some of whose calls fail.
    FailingAlone(Over<FaultyBench, Alone<FaultyBench>>),
    /// Over one whose replies are given.
    AnsweringAlone(Over<Scripted, Alone<Scripted>>),
}

// The limits of a bench whose replies are given.
const ONE: Limits = Limits {
    packet_size: 64,
    packet_count: 1,
};

// Over a bench in memory.
fn over_memory(alloc: Global, setting: &Setting) -> Result<AnyAccess, RowError> {
    let job = job_of(alloc, setting)?;
    let bench = memory_bench(alloc, &job)?;
    Ok(if setting.alone {
        AnyAccess::MemoryAlone(begin(alloc, bench, job.limits)?)
    } else {
        AnyAccess::Memory(begin(alloc, bench, job.limits)?)
    })
}

// Over a bench some of whose calls fail.
fn over_failing(alloc: Global, setting: &Setting) -> Result<AnyAccess, RowError> {
    let job = job_of(alloc, setting)?;
    let bench = failing_bench(alloc, setting.failing.as_slice(), &job)?;
    Ok(if setting.alone {
        AnyAccess::FailingAlone(begin(alloc, bench, job.limits)?)
    } else {
        AnyAccess::Failing(begin(alloc, bench, job.limits)?)
    })
}

// Over a bench whose replies are given.
fn over_answering(alloc: Global, setting: &Setting) -> Result<AnyAccess, RowError> {
    let bench = scripted_bench(alloc, setting)?;
    Ok(if setting.alone {
        AnyAccess::AnsweringAlone(begin(alloc, bench, ONE)?)
    } else {
        AnyAccess::Answering(begin(alloc, bench, ONE)?)
    })
}

impl Trial for AnyAccess {
    fn begin(alloc: Global, form: &str) -> Result<AnyAccess, RowError> {
        let setting = setting_of_form(alloc, form)?;
        match setting.kind {
            BenchKind::Memory => over_memory(alloc, &setting),
            BenchKind::Failing => over_failing(alloc, &setting),
            BenchKind::Answering => over_answering(alloc, &setting),
            BenchKind::Silent => Err(RowError::Unreadable),
        }
    }

    fn answer(&mut self, alloc: Global, input: &str) -> Result<String, RowError> {
        match self {
            AnyAccess::Memory(over) => over.step(alloc, input),
            AnyAccess::Failing(over) => over.step(alloc, input),
            AnyAccess::Answering(over) => over.step(alloc, input),
            AnyAccess::MemoryAlone(over) => over.step(alloc, input),
            AnyAccess::FailingAlone(over) => over.step(alloc, input),
            AnyAccess::AnsweringAlone(over) => over.step(alloc, input),
        }
    }
}
