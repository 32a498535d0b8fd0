//! The simulated probe and its target: the member `bench`.
ghost use Rattle.serde_json.specs.View.{view};
ghost use Rattle.json_form.specs.Faults.{Gives};
ghost use Rattle.json_form.specs.Reading.{only_keys};
ghost use Rattle.job_text.specs.Keys.{bench_keys};
ghost use Rattle.job_text.specs.TargetReading.{packet_size_in, packet_count_in, limits_in, bench_in};

use crate::target::TargetReader;
use dap_base::ItemList;
use device_tree::JobFault;
use json_form::{Each, ListOf, Number, Reader, member_or, only_keys_of, required_of};
use probe_core::{BenchJob, Limits};
use serde_json::Value;
use std::alloc::Global;

const BENCH_KEYS: [&str; 4] = ["packet_size", "packet_count", "stalls", "target"];

const PACKET_SIZE: Number<u16> = Number {
    low: 64,
    high: 1024,
};

const PACKET_COUNT: Number<u8> = Number { low: 1, high: 64 };

const STALLS: ListOf<Each<Number<u32>>> = ListOf {
    limit: Some(65_536),
    item: Each {
        item: Number {
            low: 0,
            high: 100_000,
        },
    },
};

#[tactic(auto, unfolding(crate::specs::TargetReading::packet_size_in))]
fn packet_size_of(alloc: Global, bench: &Value) -> Result<u16, JobFault>
    ensures { Gives result (packet_size_in (view bench.now)) }
{
    required_of(alloc, bench, "packet_size", &PACKET_SIZE)
}

#[tactic(auto, unfolding(crate::specs::TargetReading::packet_count_in))]
fn packet_count_of(alloc: Global, bench: &Value) -> Result<u8, JobFault>
    ensures { Gives result (packet_count_in (view bench.now)) }
{
    required_of(alloc, bench, "packet_count", &PACKET_COUNT)
}

#[tactic(auto, unfolding(crate::specs::TargetReading::limits_in))]
fn limits_of(alloc: Global, bench: &Value) -> Result<Limits, JobFault>
    ensures { Gives result (limits_in (view bench.now)) }
{
    let packet_size = packet_size_of(alloc, bench)?;
    let packet_count = packet_count_of(alloc, bench)?;
    Ok(Limits {
        packet_size,
        packet_count,
    })
}

// That the value has no other keys than a bench may have.
fn only_bench_keys(alloc: Global, value: &Value) -> Result<(), JobFault>
    ensures { Gives result (only_keys bench_keys (view value.now)) }
{
    only_keys_of(alloc, value, &BENCH_KEYS)
}

/// Reads a bench.
#[derive(Clone, Copy)]
pub struct BenchReader;

impl Reader for BenchReader {
    type Item = BenchJob;

    ghost reads = { λ _. bench_in };

    #[tactic(auto, unfolding(crate::specs::TargetReading::bench_in))]
    fn read(&self, alloc: Global, value: &Value) -> Result<BenchJob, JobFault> {
        only_bench_keys(alloc, value)?;
        let limits = limits_of(alloc, value)?;
        let stalls = member_or(alloc, value, "stalls", &STALLS, ItemList::new(alloc))?;
        let target = required_of(alloc, value, "target", &TargetReader)?;
        Ok(BenchJob {
            limits,
            stalls,
            target,
        })
    }
}
