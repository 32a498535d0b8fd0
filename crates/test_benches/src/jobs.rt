//! The jobs of the benches in memory.
ghost use Rattle.std.specs.Prelude.{◌≡◌, ◌≤◌, ◌↔◌, IfOk, IsTrue, length, true};
ghost use Rattle.std.specs.List.{All};
ghost use Rattle.probe_core.specs.Ranges.{AreLimits, IsBenchJob};

use dap_base::{ItemList, OutOfMemory};
use probe_core::{BenchJob, Limits, Stalls};
use std::alloc::Global;
use test_words::{RowError, Setting, target_of};

// The packet limits of a setting. An error where no probe may have them.
fn limits_of(setting: &Setting) -> Result<Limits, RowError>
    ensures { IfOk result AreLimits }
{
    let packet_size = setting.packet_size;
    let packet_count = setting.packet_count;
    if packet_size < 64 || packet_size > 1024 || packet_count < 1 || packet_count > 64 {
        return Err(RowError::Unreadable);
    }
    Ok(Limits {
        packet_size,
        packet_count,
    })
}

// Whether these may be stalls of a bench.
fn are_stalls(stalls: &[u32]) -> bool
    ensures { IsTrue result ↔ All (λ stall. stall ≤ 100000) stalls.now }
{
    stalls.iter().all(|stall| *stall <= 100_000)
}

// A list of the same items.
fn list(alloc: Global, items: &[u32]) -> Result<Stalls, OutOfMemory>
    ensures { IfOk result (λ list. list ≡ items.now) }
{
    let mut list = ItemList::new(alloc);
    for item in items {
        list.push(*item)?;
    }
    Ok(list)
}

// The stalls of a setting. An error where there are too many, or one is too large.
fn stalls_of(alloc: Global, stalls: &[u32]) -> Result<Stalls, RowError>
    ensures few { IfOk result (λ stalls. length stalls ≤ 65536) }
    ensures stalls { IfOk result (All (λ stall. stall ≤ 100000)) }
{
    if stalls.len() > 65_536 || !are_stalls(stalls) {
        return Err(RowError::Unreadable);
    }
    match list(alloc, stalls) {
        Ok(list) => Ok(list),
        Err(OutOfMemory) => Err(RowError::OutOfMemory),
    }
}

/// The job of a bench so set, with the target of the tests. An error where a number is out of its range, or memory is refused.
pub fn job_of(alloc: Global, setting: &Setting) -> Result<BenchJob, RowError>
    ensures { IfOk result IsBenchJob }
{
    let limits = limits_of(setting)?;
    let stalls = stalls_of(alloc, setting.stalls.as_slice())?;
    let target = target_of(alloc, setting)?;
    Ok(BenchJob {
        limits,
        stalls,
        target,
    })
}
