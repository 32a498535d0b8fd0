//! The entries of a kept trace.
use dap_base::{ItemList, NameText};

/// The bytes of a packet or of a reply.
pub type Bytes = ItemList<u8>;

/// A packet that was sent, or a reply that was received. Contracts see it as an entry of a log (`entry_of`).
#[derive(Debug, Drop)]
pub enum Entry {
    /// A packet, as it was sent.
    Sent(Bytes),
    /// A reply, as it was received.
    Replied(Bytes),
}

/// The entries of a trace, in order.
pub type Entries = ItemList<Entry>;

/// The entries of a trace as texts, in order.
pub type TraceTexts = ItemList<NameText>;
