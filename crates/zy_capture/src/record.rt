//! Records of a capture.

use zy_base::Blob;

/// Bytes that came on a connection.
#[derive(PartialEq, Eq, Drop)]
pub struct Segment {
    /// The connection's number, below the capture's count.
    pub conn: u32,
    /// At most 65,535 bytes.
    pub bytes: Blob,
}

/// A segment that was taken at once, and how many bytes of a capture it was.
#[derive(Drop)]
pub struct Held {
    pub taken: usize,
    pub segment: Segment,
}

/// A record of a capture.
#[derive(PartialEq, Eq, Drop)]
pub enum Record {
    /// Bytes came on a connection.
    Segment(Segment),
    /// A connection closed, and the next bytes with its number are those of a new session. Version
    /// 2 only.
    Close { conn: u32 },
}
