//! An exchange of a trace.
ghost use Rattle.std.specs.Prelude.{◌≡◌};
ghost use Rattle.std.specs.Str.{bytes_eq};
ghost use Rattle.trace_compare.specs.Exchanges.{is_same_reply, is_same};

use trace_events::PacketBytes;

/// A packet, with its reply where it has one.
#[derive(Drop)]
pub struct Exchange {
    /// Its number in the trace, from 1.
    pub number: u64,
    pub packet: PacketBytes,
    pub reply: Option<PacketBytes>,
    /// Its lines in the trace, and its words.
    pub words: PacketBytes,
}

fn is_same_bytes(first: &PacketBytes, second: &PacketBytes) -> bool
    ensures { result ≡ bytes_eq first.now second.now }
{
    first.as_slice() == second.as_slice()
}

fn is_same_reply(first: &Option<PacketBytes>, second: &Option<PacketBytes>) -> bool
    ensures { result ≡ is_same_reply first.now second.now }
{
    match (first, second) {
        (None, None) => true,
        (Some(first), Some(second)) => is_same_bytes(first, second),
        (Some(_), None) | (None, Some(_)) => false,
    }
}

impl Exchange {
    /// Whether the packets are the same, and the replies.
    pub fn is_same(&self, other: &Exchange) -> bool
        ensures { result ≡ is_same self.now other.now }
    {
        is_same_bytes(&self.packet, &other.packet) && is_same_reply(&self.reply, &other.reply)
    }
}
