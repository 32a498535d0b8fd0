//! A text in memory.
ghost use Rattle.std.specs.Prelude.{◌≡◌, ◌++◌, [], OnOk};

use dap_base::OutOfMemory;
use std::alloc::Global;
use std::marker::Model;

/// A text of any length, seen by contracts as its bytes.
#[derive(Drop)]
pub struct LongText {
    bytes: Vec<u8>,
}

impl Model for LongText {
    ghost use Rattle.std.specs.Prelude.{ℕ, List};

    ghost Value = { List ℕ };

    ghost view = { λ t. t.bytes.items };
}

impl LongText {
    /// The empty text. Nothing is allocated.
    pub fn new(alloc: Global) -> LongText
        ensures { result ≡ [] }
    {
        LongText {
            bytes: Vec::new(alloc),
        }
    }

    /// Adds bytes at the end. Where memory is refused a part of them may be there.
    pub fn push(&mut self, bytes: &[u8]) -> Result<(), OutOfMemory>
        ensures { OnOk result (self.new ≡ self.old ++ bytes.now) }
    {
        self.bytes.extend_from_slice(bytes).map_err(|_| OutOfMemory)
    }

    /// The bytes, lent without a copy.
    pub fn as_bytes(&self) -> &[u8]
        ensures { result.now ≡ self.now }
    {
        self.bytes.as_slice()
    }
}
