//! How a load ends.
use access_calls::Stop;

/// An image that was written, and read back as it was written.
#[derive(Clone, Copy, Debug, PartialEq, Eq)]
pub struct Loaded {
    /// How many bytes the image has: at most 262,144.
    pub bytes: u32,
    /// How many writes they took: one of four bytes for each word whose four bytes are in the image, and one for each other byte.
    pub writes: u32,
}

/// Why an image is not loaded.
#[derive(Clone, Copy, Debug, PartialEq, Eq)]
pub enum LoadEnd {
    /// A byte was read back as another one: the first, in rising order. All of the image was written and read.
    Differs {
        /// Its address.
        address: u32,
        /// The byte of the image.
        wanted: u8,
        /// The byte that was read.
        found: u8,
    },
    /// The access stopped, or memory was refused.
    Stop(Stop),
}
