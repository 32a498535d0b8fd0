//! What was read back, against what was written.
ghost use Rattle.std.specs.Prelude.{◌≡◌, ◌+◌, ◌≤◌, ◌^◌, ◌<◌};
ghost use Rattle.image_load.specs.Pieces.{byte_from_bit, difference};

use crate::piece::{Difference, WordOrByte};

// The byte of a number that begins at a bit.
fn byte_at(number: u32, bit: u32) -> u8
    requires { bit < 32 }
    ensures { result ≡ byte_from_bit number bit }
{
    ((number >> bit) % 256) as u8
}

// The first byte of a piece that was read as another one.
pub(crate) fn difference(piece: WordOrByte, found: u32) -> Option<Difference>
    requires size { piece.size ≤ 4 }
    requires fits { piece.address + piece.size ≤ 2 ^ 32 }
    ensures { result ≡ difference piece.size 0 piece.address piece.value found }
{
    let mut bit = 0;
    for i in 0..piece.size {
        let wanted = byte_at(piece.value, bit);
        let byte = byte_at(found, bit);
        if wanted != byte {
            return Some(Difference {
                address: piece.address + u32::from(i),
                wanted,
                found: byte,
            });
        }
        bit += 8;
    }
    None
}
