//! A packet or a reply that is kept.
ghost use Rattle.std.specs.Prelude.{◌≡◌, ◌≤◌, ℕ, List, length, take};

use std::marker::Model;

/// At most 1,024 bytes of a packet or of a reply.
#[derive(Drop)]
pub struct Kept {
    bytes: [u8; 1024],
    length: u16,
    ghost fits: { length ≤ 1024 },
}

impl Model for Kept {
    ghost Value = { List ℕ };

    ghost view = { λ k. take k.length k.bytes };
}

impl Kept {
    /// These bytes, at most 1,024.
    pub fn new(bytes: &[u8]) -> Kept
        requires { length bytes.now ≤ 1024 }
        ensures { result ≡ bytes.now }
    {
        let mut kept = [0u8; 1024];
        kept[..bytes.len()].copy_from_slice(bytes);
        Kept {
            bytes: kept,
            length: bytes.len() as u16,
        }
    }

    /// The bytes.
    pub fn as_slice(&self) -> &[u8]
        ensures { result.now ≡ self.now }
    {
        &self.bytes[..self.length as usize]
    }
}
