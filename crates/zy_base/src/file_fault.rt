//! Faults of journal and replies files.

/// What is wrong with a journal or a replies file. Places count from 0 in the file.
#[derive(Clone, Copy, PartialEq, Eq)]
pub enum FileFault {
    /// A field, code, length or tag that is wrong; the place is that of its first byte.
    Form { at: u64 },
    /// The input ended before the end byte; the place is the number of bytes read.
    Truncated { at: u64 },
    /// The file has over 2^63 - 1 bytes.
    TooLong,
}
