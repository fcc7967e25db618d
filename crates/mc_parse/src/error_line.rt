//! The error lines that a command is answered with.

/// The error line that answers a faulty line or block.
#[derive(Clone, Copy, PartialEq, Eq)]
pub enum ErrorLine {
    /// No word, an unknown first word, or a wrong number of words.
    Unknown,
    /// A key that is too long, or a bad number.
    BadLine,
    /// A bad amount of `incr` or `decr`.
    BadDelta,
    /// A line of more than 65,536 bytes.
    LongLine,
    /// A block that does not end in `\r\n`.
    BadChunk,
    /// A value of more than 1,048,576 bytes.
    TooLarge,
}
