//! The access over a bench that it owns, as runs know it.
use crate::access::PackedAccess;
use crate::opening::begin_over;
use crate::sender::Sender;
use access_calls::{NotBegun, OverBench};
use bench_flights::FlightsOver;
use probe_core::{Bench, Config, Limits};
use std::alloc::Global;

impl<B: Bench, F: FlightsOver<B>> OverBench<B> for PackedAccess<F> {
    fn begin(
        alloc: Global,
        bench: B,
        config: Config,
        limits: Limits,
    ) -> Result<PackedAccess<F>, NotBegun<B>> {
        begin_over(alloc, bench, config, limits)
    }

    fn into_bench(self) -> B {
        let PackedAccess { sender, config: _ } = self;
        let Sender {
            flights,
            managed: _,
            log: _,
        } = sender;
        flights.into_bench()
    }
}
