//! The benches in memory are observable: code that knows them by the trait alone still sees their
//! state. Each law is the contract of a call that goes through the bound.
ghost use Rattle.std.specs.Prelude.{◌≡◌, IsOk, OnOk};
ghost use Rattle.dap_base.specs.Causes.{HasCause};
ghost use Rattle.probe_core.specs.Bench.{CanSend, StepsTo, bench_after_packet};
ghost use Rattle.probe_core.specs.Memory.{faulty_reported, reported_of};

use crate::{Bench, FaultyBench, MemoryBench};
use dap_base::Failed;

fn sent_through<B: Bench>(bench: &mut B, packet: &[u8]) -> Result<(), Failed>
    requires { CanSend (B.reported bench.old) packet.now }
    ensures state { OnOk result (StepsTo (λ m n. n ≡ bench_after_packet m packet.now) (B.state bench.old) (B.state bench.new)) }
    ensures cause { HasCause (B.reported bench.old).faults (B.reported bench.new).faults result }
{
    bench.send(packet)
}

/// What the trait says of the state of a bench that is observable is true of one in memory. A packet that is sent through the bound is
/// received, and its state is then `served`.
pub fn a_memory_bench_is_observable(bench: &mut MemoryBench, packet: &[u8]) -> Result<(), Failed>
    requires { CanSend (reported_of bench.old) packet.now }
    ensures sent { IsOk result }
    ensures state { bench.new.state ≡ bench_after_packet bench.old.state packet.now }
{
    sent_through(bench, packet)
}

/// The same of one whose calls may fail, where the call does not fail.
pub fn a_faulty_bench_is_observable(bench: &mut FaultyBench, packet: &[u8]) -> Result<(), Failed>
    requires { CanSend (faulty_reported bench.old) packet.now }
    ensures state { OnOk result (bench.new.inner.state ≡ bench_after_packet bench.old.inner.state packet.now) }
    ensures cause { HasCause bench.old.faults bench.new.faults result }
{
    sent_through(bench, packet)
}
