/// How what follows a sequence came to its end.
#[derive(Clone, Copy, Debug, PartialEq, Eq)]
pub enum Close {
    /// Nothing followed.
    Nothing,
    /// An image was written and read back as it was written.
    Loaded {
        /// How many bytes the image has.
        bytes: u32,
        /// How many writes they took: one of four bytes for each whole word, and one for each other byte.
        writes: u32,
    },
    /// A byte of the image was read back as another one: the first, by addresses.
    Differs {
        /// Its address.
        address: u32,
        /// The byte of the image.
        wanted: u8,
        /// The byte that was read.
        found: u8,
    },
    /// The ROM table was read to its end.
    Scanned,
    /// The ROM table has more components than are listed.
    Full,
}
