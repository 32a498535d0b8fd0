//! The forms in which a flight is sent.

/// How the accesses of a flight become packets.
#[derive(Clone, Copy, Debug, PartialEq, Eq)]
pub enum Form {
    /// One packet: a block of writes of DRW.
    Block,
    /// One packet: one Transfer.
    Transfer,
    /// A chain of guarded Transfers, one to a packet, of which all but the last are held.
    Chain,
}
