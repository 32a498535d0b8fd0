//! An event of a trace.
use crate::bytes::PacketBytes;

/// What a trace says.
#[derive(Debug, Drop)]
pub enum Event {
    /// A packet, with its reply where it has one.
    Exchange {
        packet: PacketBytes,
        reply: Option<PacketBytes>,
    },
    /// A reply that no packet waits for.
    Stray(PacketBytes),
    /// A line that is neither a packet nor a reply, or a part of one, as it is.
    Other(PacketBytes),
}
