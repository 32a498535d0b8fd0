//! Bytes that grow at their end.
ghost use Rattle.std.specs.Prelude.{◌≡◌, ◌↔◌, ◌++◌, [], length, IfOk, IsTrue, OnOk};

use dap_base::OutOfMemory;
use std::alloc::Global;
use std::marker::Model;

/// Bytes, seen by contracts as their list.
#[derive(Debug, Drop)]
pub struct PacketBytes {
    items: Vec<u8>,
}

impl Model for PacketBytes {
    ghost use Rattle.std.specs.Prelude.{ℕ, List};

    ghost Value = { List ℕ };

    ghost view = { λ b. b.items.items };
}

impl PacketBytes {
    /// No bytes. Nothing is allocated.
    pub fn new(alloc: Global) -> PacketBytes
        ensures { result ≡ [] }
    {
        PacketBytes {
            items: Vec::new(alloc),
        }
    }

    // These bytes, without a copy.
    pub fn of(items: Vec<u8>) -> PacketBytes
        ensures { result ≡ items.items }
    {
        PacketBytes { items }
    }

    /// Adds bytes at the end. `OutOfMemory` where memory is refused.
    pub fn push(&mut self, bytes: &[u8]) -> Result<(), OutOfMemory>
        ensures { OnOk result (self.new ≡ self.old ++ bytes.now) }
    {
        self.items.extend_from_slice(bytes).map_err(|_| OutOfMemory)
    }

    /// A copy of these bytes. `OutOfMemory` where memory is refused.
    pub fn copy_of(alloc: Global, bytes: &[u8]) -> Result<PacketBytes, OutOfMemory>
        ensures { IfOk result (λ copy. copy ≡ bytes.now) }
    {
        match Vec::from_slice(alloc, bytes) {
            Ok(items) => Ok(PacketBytes { items }),
            Err(_) => Err(OutOfMemory),
        }
    }

    /// How many bytes there are.
    pub fn len(&self) -> usize
        ensures { result ≡ length self.now }
    {
        self.items.len()
    }

    /// Whether there are none.
    pub fn is_empty(&self) -> bool
        ensures { IsTrue result ↔ (self.now ≡ []) }
    {
        self.items.is_empty()
    }

    /// The bytes, lent without a copy.
    pub fn as_slice(&self) -> &[u8]
        ensures { result.now ≡ self.now }
    {
        self.items.as_slice()
    }
}
