//! One packet and its reply.
ghost use Rattle.std.specs.Prelude.{◌≡◌, ◌<◌, ◌≤◌, false, length, take, IfOk, OnErr};
ghost use Rattle.probe_core.specs.Bench.{reported_after_packet, reported_after_reply};
ghost use Rattle.probe_core.specs.Probe.{is_queued};
ghost use Rattle.batch_packer.specs.Exchanges.{CallsOver, HasAnswered, IsIdle, IsOpen, MayHaveRun, StepsWhere};

use dap_base::Failed;
use probe_core::Bench;

/// Sends a packet that is not held, and takes its reply. At `Failed` the packet was executed or not.
#[tactic(auto, using(crate::proofs::ExchangeLemmas::exchanging))]
pub fn exchange<B: Bench>(packet: &[u8], out: &mut [u8], bench: &mut B) -> Result<usize, Failed>
    requires open { IsOpen (B.reported bench.old) }
    requires some { 0 < length packet.now }
    requires fits { length packet.now ≤ (B.reported bench.old).limits.packet_size }
    requires plain { is_queued packet.now ≡ false }
    requires room { (B.reported bench.old).limits.packet_size ≤ length out.old }
    ensures bound { IfOk result (λ n. n ≤ length out.new) }
    ensures reported { IfOk result (λ n. B.reported bench.new ≡ reported_after_reply (reported_after_packet (B.reported bench.old) packet.now) (take n out.new)) }
    ensures state { IfOk result (λ n. StepsWhere IsIdle (HasAnswered packet.now (take n out.new)) (B.state bench.old) (B.state bench.new)) }
    ensures failed { OnErr result (StepsWhere IsIdle (MayHaveRun packet.now) (B.state bench.old) (B.state bench.new)) }
    ensures keeps { CallsOver B.reported B.state B.identity result bench.old bench.new }
{
    bench.send(packet)?;
    bench.receive(out)
}
