//! Flights over the benches that forms name.

use crate::session::Session;
use probe_core::{FaultyBench, Limits, MemoryBench};
use std::alloc::Global;
use test_benches::{Scripted, failing_bench, job_of, memory_bench, scripted_bench};
use test_words::{BenchKind, RowError, Trial, setting_of_form};

/// A flight over a bench, with which the rows of a form are tried one after the other.
#[derive(Drop)]
pub enum AnyFlight {
    /// Over a bench in memory.
    Memory(Session<MemoryBench>),
    /// Over one some of whose calls fail.
    Failing(Session<FaultyBench>),
    /// Over one whose replies are given.
    Answering(Session<Scripted>),
}

// The limits of a bench whose replies are given.
const ONE: Limits = Limits {
    packet_size: 64,
    packet_count: 1,
};

impl Trial for AnyFlight {
    fn begin(alloc: Global, form: &str) -> Result<AnyFlight, RowError> {
        let setting = setting_of_form(alloc, form)?;
        let job = job_of(alloc, &setting)?;
        let limits = job.limits;
        match setting.kind {
            BenchKind::Memory => {
                let bench = memory_bench(alloc, &job)?;
                Ok(AnyFlight::Memory(Session::new(alloc, bench, limits)?))
            }
            BenchKind::Failing => {
                let bench = failing_bench(alloc, setting.failing.as_slice(), &job)?;
                Ok(AnyFlight::Failing(Session::new(alloc, bench, limits)?))
            }
            BenchKind::Answering => {
                let bench = scripted_bench(alloc, &setting)?;
                Ok(AnyFlight::Answering(Session::new(alloc, bench, ONE)?))
            }
            BenchKind::Silent => Err(RowError::Unreadable),
        }
    }

    fn answer(&mut self, alloc: Global, input: &str) -> Result<String, RowError> {
        match self {
            AnyFlight::Memory(session) => session.step(alloc, input),
            AnyFlight::Failing(session) => session.step(alloc, input),
            AnyFlight::Answering(session) => session.step(alloc, input),
        }
    }
}
