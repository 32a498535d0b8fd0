//! A bench whose replies are given.
ghost use Rattle.std.specs.Prelude.{◌≡◌, ◌+◌, ◌≤◌, ◌^◌, ◌-◌, None, false, if◌then◌else◌, length, min};
ghost use Rattle.probe_core.specs.Reports.{AreInRange};

use dap_base::Failed;
use probe_core::{Bench, BenchJob, LoadError, PacketList, Shown};
use std::alloc::Global;
use target_machine::{ImageAsk, ImagePart};

/// Answers every packet with one reply; where it is so made, the three packets of an opening before it. It is not
/// observable, takes one packet of 64 bytes at a time, and its calls `load`, `image` and `show` fail.
#[derive(Drop)]
pub struct Scripted {
    packets: PacketList,
    replies: PacketList,
    // Which packet of an opening comes next; 3 after them.
    opening: u8,
    reply: [u8; 16],
    len: usize,
    waits: bool,
    faults: u64,
    exchanges: u64,
    ghost short: { len ≤ 16 },
    ghost packets_room: { packets.room ≡ 1 },
    ghost replies_room: { replies.room ≡ 1 },
    ghost in_range: { AreInRange (record { packet_size = 64; packet_count = 1 }) 0 (if waits then 1 else 0) exchanges (record { packets = packets.items; replies = replies.items }) },
}

impl Scripted {
    /// Answers every packet with this reply, of at most 16 bytes. No memory is taken.
    pub fn new(alloc: Global, reply: &[u8]) -> Scripted
        requires { length reply.now ≤ 16 }
        ensures none_waits { result.waits ≡ false }
        ensures opened { result.opening ≡ 3 }
    {
        Scripted::with_opening(alloc, 3, reply)
    }

    /// Answers the three packets with which an access begins (a packet size of 64, a packet count of 1, settings
    /// that are taken), and then every packet with this reply, of at most 16 bytes. No memory is taken.
    pub fn after_opening(alloc: Global, reply: &[u8]) -> Scripted
        requires { length reply.now ≤ 16 }
        ensures none_waits { result.waits ≡ false }
        ensures opens { result.opening ≡ 0 }
    {
        Scripted::with_opening(alloc, 0, reply)
    }

    fn with_opening(alloc: Global, opening: u8, reply: &[u8]) -> Scripted
        requires { length reply.now ≤ 16 }
        ensures none_waits { result.waits ≡ false }
        ensures opening { result.opening ≡ opening }
    {
        let mut bytes = [0; 16];
        bytes[..reply.len()].copy_from_slice(reply);
        Scripted {
            packets: PacketList::one(alloc),
            replies: PacketList::one(alloc),
            opening,
            reply: bytes,
            len: reply.len(),
            waits: false,
            faults: 0,
            exchanges: 0,
        }
    }

    // The reply to the packet that was sent.
    fn next(&self) -> &[u8]
        ensures { length result.now ≤ 16 }
    {
        match self.opening {
            0 => &[0, 2, 64, 0],
            1 => &[0, 1, 1],
            2 => &[4, 0],
            _ => &self.reply[..self.len],
        }
    }

    // A call that fails is counted.
    fn fail(&mut self)
        ensures later { self.old.faults ≤ self.new.faults }
        ensures same { self.new ≡ record self.old { faults = min (self.old.faults + 1) (2 ^ 64 - 1) } }
    {
        self.faults = self.faults.saturating_add(1);
    }
}

impl Bench for Scripted {
    ghost reported = { λ b. record {
      limits = record { packet_size = 64; packet_count = 1 };
      held = 0;
      waiting = if b.waits then 1 else 0;
      faults = b.faults;
      exchanges = b.exchanges;
      last = record { packets = b.packets.items; replies = b.replies.items };
    } };

    ghost state = { λ _. None };

    ghost identity = { λ _. 0 };

    ghost in_range = { λ b. b.in_range };

    ghost agrees = { λ _. tt };

    ghost counts = { λ _. tt };

    ghost tallies = { λ _. tt };

    fn load(&mut self, _alloc: Global, _job: &BenchJob) -> Result<(), LoadError> {
        self.fail();
        Err(LoadError::Failed)
    }

    fn send(&mut self, packet: &[u8]) -> Result<(), Failed> {
        self.exchanges = self.exchanges.saturating_add(1);
        self.packets.clear();
        self.replies.clear();
        self.packets.push(packet);
        self.waits = true;
        Ok(())
    }

    fn receive(&mut self, out: &mut [u8]) -> Result<usize, Failed> {
        let reply = self.next();
        let len = reply.len();
        out[..len].copy_from_slice(reply);
        self.opening = self.opening.saturating_add(1);
        self.waits = false;
        self.replies.push(&out[..len]);
        Ok(len)
    }

    fn image(&mut self, _ask: ImageAsk) -> Result<ImagePart, Failed> {
        self.fail();
        Err(Failed)
    }

    fn show(&mut self, _index: u32, _out: &mut [u8]) -> Result<Shown, Failed> {
        self.fail();
        Err(Failed)
    }
}
