//! Faults of captures.

use zy_read::NotTaken;

/// What is wrong with a capture. Places count from 0 in the file.
#[derive(Clone, Copy, PartialEq, Eq)]
pub enum CaptureFault {
    /// The byte at this place belongs to no magic.
    BadMagic { at: u64 },
    /// The connection count is over 4,096.
    ConnCount { number: u32 },
    /// The byte where a record or the end is expected is not a tag of this version.
    BadTag { at: u64, byte: u8 },
    /// The connection of a record is not below the count; the place is that of the field.
    ConnRange { at: u64, number: u32 },
    /// The length of a segment is over 65,535; the place is that of the field.
    SegmentLength { at: u64, number: u32 },
    /// The input ended before the end byte; the place is the number of bytes read.
    Truncated { at: u64 },
    /// A byte follows the end byte, at this place.
    Trailing { at: u64 },
    /// A byte was given beyond the 4,294,967,295 that a capture may have, and the end byte was not
    /// read.
    TooLong,
}

/// Why the reader of captures didn't take a byte.
pub type FeedFault = NotTaken<CaptureFault>;
