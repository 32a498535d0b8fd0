//! Benches that were begun: the first three have loaded the job of their setting.
ghost use Rattle.std.specs.Prelude.{◌≡◌, false, IfOk, OnOk};
ghost use Rattle.probe_core.specs.Memory.{faulty_reported, reported_of};
ghost use Rattle.probe_core.specs.Ranges.{IsBenchJob};

use crate::Scripted;
use probe_core::{Bench, BenchJob, FaultyBench, LoadError, MemoryBench};
use std::alloc::Global;
use test_words::{RowError, Setting};

/// Loads a job. An error where the bench fails: its first call may be one of those.
pub fn load_into<B: Bench>(alloc: Global, bench: &mut B, job: &BenchJob) -> Result<(), RowError>
    requires { IsBenchJob job.now }
    ensures held { OnOk result ((B.reported bench.new).held ≡ 0) }
    ensures waiting { OnOk result ((B.reported bench.new).waiting ≡ 0) }
    ensures limits { OnOk result ((B.reported bench.new).limits ≡ job.now.limits) }
{
    match bench.load(alloc, job) {
        Ok(()) => Ok(()),
        Err(LoadError::Failed) => Err(RowError::Unreadable),
        Err(LoadError::OutOfMemory) => Err(RowError::OutOfMemory),
    }
}

/// A bench in memory with this job.
pub fn memory_bench(alloc: Global, job: &BenchJob) -> Result<MemoryBench, RowError>
    requires { IsBenchJob job.now }
    ensures held { IfOk result (λ bench. (reported_of bench).held ≡ 0) }
    ensures waiting { IfOk result (λ bench. (reported_of bench).waiting ≡ 0) }
    ensures limits { IfOk result (λ bench. (reported_of bench).limits ≡ job.now.limits) }
{
    let mut bench = MemoryBench::new(alloc);
    load_into(alloc, &mut bench, job)?;
    Ok(bench)
}

/// A bench with this job whose calls of these numbers fail, where the load is the first.
pub fn failing_bench(
    alloc: Global,
    failing: &[u32],
    job: &BenchJob,
) -> Result<FaultyBench, RowError>
    requires { IsBenchJob job.now }
    ensures held { IfOk result (λ bench. (faulty_reported bench).held ≡ 0) }
    ensures waiting { IfOk result (λ bench. (faulty_reported bench).waiting ≡ 0) }
    ensures limits { IfOk result (λ bench. (faulty_reported bench).limits ≡ job.now.limits) }
{
    let mut bench = FaultyBench::new(alloc, failing)?;
    load_into(alloc, &mut bench, job)?;
    Ok(bench)
}

/// A bench that answers as the setting says: each packet by its reply, and the three packets of an opening before it where it opens.
/// An error where the reply has more than 16 bytes.
pub fn scripted_bench(alloc: Global, setting: &Setting) -> Result<Scripted, RowError>
    ensures { IfOk result (λ bench. bench.waits ≡ false) }
{
    let reply = setting.reply.as_slice();
    if reply.len() > 16 {
        return Err(RowError::Unreadable);
    }
    if setting.opens {
        Ok(Scripted::after_opening(alloc, reply))
    } else {
        Ok(Scripted::new(alloc, reply))
    }
}
