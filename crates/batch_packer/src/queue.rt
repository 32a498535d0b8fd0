//! The packets of a chain over a bench, and the replies to them.
ghost use Rattle.std.specs.Prelude.{◌≡◌, ◌≤◌, [], fold, length, OnOk, OnErr};
ghost use Rattle.dap_base.specs.Causes.{HasCause};
ghost use Rattle.probe_core.specs.Bench.{StepsTo, reported_after_reply, reported_after_packet, bench_after_packet};
ghost use Rattle.probe_core.specs.Runs.{KeepsRuns};
ghost use Rattle.batch_packer.specs.Exchanges.{CallsOver, IsOpen, StaysAt};
ghost use Rattle.batch_packer.specs.Queues.{HandedSome, IsQueue, ServedSome};
ghost use Rattle.batch_packer.specs.Rooms.{most_bytes};

use dap_base::Failed;
use probe_core::{Bench, PacketList};

/// Sends the packets of a chain in order. All but the last are held, and the last lets all run. At
/// `Failed` the first of them were received, or none.
#[tactic(auto, using(probe_core::proofs::StateSteps::runs_then, probe_core::proofs::StateSteps::runs_self))]
pub fn send_all<B: Bench>(packets: &PacketList, bench: &mut B) -> Result<(), Failed>
    requires open { IsOpen (B.reported bench.old) }
    requires chain { IsQueue (B.reported bench.old).limits packets.now.items }
    ensures reported { OnOk result (B.reported bench.new ≡ fold reported_after_packet (B.reported bench.old) packets.now.items) }
    ensures state { OnOk result (StepsTo (λ m n. n ≡ fold bench_after_packet m packets.now.items) (B.state bench.old) (B.state bench.new)) }
    ensures failed { OnErr result (StepsTo (ServedSome packets.now.items) (B.state bench.old) (B.state bench.new)) }
    ensures keeps { CallsOver B.reported B.state B.identity result bench.old bench.new }
{
    for i in 0..packets.len() {
        bench.send(packets.get(i))?;
    }
    Ok(())
}

/// Takes so many replies in order, in the room of `out`.
#[tactic(auto, using(crate::proofs::QueueLemmas::handing))]
pub fn receive_all<B: Bench>(
    count: usize,
    replies: &mut PacketList,
    out: &mut [u8],
    bench: &mut B,
) -> Result<(), Failed>
    requires waits { count ≤ (B.reported bench.old).waiting }
    requires room { length out.old ≡ most_bytes }
    requires size { (B.reported bench.old).limits.packet_size ≤ 1024 }
    requires fresh { replies.old.items ≡ [] }
    requires many { count ≤ replies.old.room }
    ensures count { OnOk result (length replies.new.items ≡ count) }
    ensures room { replies.new.room ≡ replies.old.room }
    ensures reported { OnOk result (B.reported bench.new ≡ fold reported_after_reply (B.reported bench.old) replies.new.items) }
    ensures state { StepsTo (HandedSome replies.new.items) (B.state bench.old) (B.state bench.new) }
    ensures keeps { StaysAt (B.reported bench.old) (B.reported bench.new) }
    ensures runs { KeepsRuns (B.state bench.old) (B.state bench.new) }
    ensures identity { B.identity bench.new ≡ B.identity bench.old }
    ensures cause { HasCause (B.reported bench.old).faults (B.reported bench.new).faults result }
{
    for _ in 0..count {
        let len = bench.receive(out)?;
        replies.push(&out[..len]);
    }
    Ok(())
}
