//! The bytes of an image.
ghost use Rattle.std.specs.Prelude.{◌≡◌, ◌≤◌, length};

use std::collections::BTreeMap;
use std::marker::Model;

/// The bytes of an image, at most 262,144, each with its address, in rising order.
#[derive(Debug, Drop)]
pub struct Image {
    pub(crate) bytes: BTreeMap<u32, u8>,
}

impl Model for Image {
    ghost use Rattle.std.specs.Prelude.{◌≤◌, length};
    ghost use Rattle.hex_image.specs.Image.{Bytes};

    ghost Value = { Bytes };

    ghost view = { λ i. i.bytes.entries };

    ghost invariant = { λ i. length i.bytes.entries ≤ 262144 };
}

impl Image {
    /// The bytes by their addresses, at most 262,144 of them.
    pub fn bytes(&self) -> &BTreeMap<u32, u8>
        ensures bytes { result.now.entries ≡ self.now }
        ensures few { length self.now ≤ 262144 }
    {
        &self.bytes
    }
}
