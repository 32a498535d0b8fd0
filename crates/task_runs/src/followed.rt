//! What follows a sequence.
use hex_image::Image;

/// What follows a sequence that is done.
#[derive(Clone, Copy, Debug)]
pub enum Followed<'a> {
    /// Nothing.
    Nothing,
    /// An image is written through an access port and read back.
    Load {
        /// The number of the access port.
        ap: u8,
        /// At most 262,144 bytes.
        image: &'a Image,
    },
    /// The components below the base of an access port are listed.
    Scan {
        /// The number of the access port.
        ap: u8,
    },
}
