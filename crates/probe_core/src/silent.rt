//! A bench whose state contracts do not know, as one over a real probe.
ghost use Rattle.std.specs.Prelude.{None};
ghost use Rattle.probe_core.specs.Memory.{IsBeforeLoad, reported_of};

use crate::{Bench, BenchJob, LoadError, MemoryBench, Shown};
use dap_base::Failed;
use std::alloc::Global;
use std::marker::Model;
use target_machine::{ImageAsk, ImagePart};

/// A [`MemoryBench`] that is not observable: code over it knows what every bench reports, as it
/// would over a real probe, and nothing of its state. It never fails a call.
#[derive(Drop)]
pub struct SilentBench {
    inner: MemoryBench,
}

impl Model for SilentBench {
    ghost use Rattle.std.specs.Coded.{codes};
    ghost use Rattle.target_machine.specs.Memory.{memory_code};
    ghost use Rattle.target_machine.specs.State.{aps_code};
    ghost use Rattle.probe_core.specs.Memory.{MemoryBenchState};

    ghost Value = { MemoryBenchState };

    ghost coded = { Prim.hlevel (codes, memory_code, aps_code) };

    ghost view = { λ b. b.inner };
}

impl SilentBench {
    /// A bench before its first `load`, with packet size 64 and packet count 1. No memory is taken.
    pub fn new(alloc: Global) -> SilentBench
        ensures { IsBeforeLoad result }
    {
        SilentBench {
            inner: MemoryBench::new(alloc),
        }
    }
}

impl Bench for SilentBench {
    ghost reported = { reported_of };

    ghost state = { λ _. None };

    ghost identity = { λ _. 0 };

    ghost in_range = { λ b. b.in_range };

    ghost agrees = { λ _. tt };

    ghost counts = { λ _. tt };

    ghost tallies = { λ _. tt };

    fn load(&mut self, alloc: Global, job: &BenchJob) -> Result<(), LoadError> {
        self.inner.load(alloc, job)
    }

    fn send(&mut self, packet: &[u8]) -> Result<(), Failed> {
        self.inner.send(packet)
    }

    fn receive(&mut self, out: &mut [u8]) -> Result<usize, Failed> {
        self.inner.receive(out)
    }

    fn image(&mut self, ask: ImageAsk) -> Result<ImagePart, Failed> {
        self.inner.image(ask)
    }

    fn show(&mut self, index: u32, out: &mut [u8]) -> Result<Shown, Failed> {
        self.inner.show(index, out)
    }
}
