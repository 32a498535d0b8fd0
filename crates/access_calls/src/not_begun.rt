//! An access that did not begin.
use crate::Stop;

/// Why an access did not begin, with the bench as the calls left it.
#[derive(Drop)]
pub struct NotBegun<B> {
    /// The bench that was given.
    pub bench: B,
    /// Never `Cut`.
    pub stop: Stop,
    /// At `ReplyBad` the first `sent_length` bytes are the packet that the bad reply answers.
    pub sent: [u8; 1024],
    /// From 0 to 1,024; 0 except at `ReplyBad`.
    pub sent_length: u16,
    /// At `ReplyBad` the first `got_length` bytes are the bad reply.
    pub got: [u8; 1024],
    /// From 0 to 1,024; 0 except at `ReplyBad`.
    pub got_length: u16,
}
