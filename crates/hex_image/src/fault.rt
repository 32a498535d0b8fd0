//! What is wrong with a text of records.

/// What is wrong with a line. Of one line the first of these is reported.
#[derive(Clone, Copy, Debug, PartialEq, Eq)]
pub enum ImageKind {
    /// A line that is not empty follows the end-of-file record.
    AfterEnd,
    /// The line is not `:` and two hexadecimal digits for each byte of a record. A record has five bytes more than its first byte says.
    BadRecord,
    /// The sum of the record's bytes is not 0 modulo 256.
    BadSum,
    /// The record type is over 5.
    BadKind,
    /// The record has more or fewer bytes of data than its type has, or data after address 0xFFFF of its base.
    BadLength,
    /// The image would have more than 262,144 bytes.
    TooMany,
    /// The text has no end-of-file record. The line is the number of lines.
    NoEnd,
}

/// Why a text is no image.
#[derive(Clone, Copy, Debug, PartialEq, Eq)]
pub enum ImageFault {
    /// What is wrong with the first line that has a fault, and the number of that line, from 1.
    Fault(ImageKind, u64),
    /// Memory was refused.
    OutOfMemory,
}
