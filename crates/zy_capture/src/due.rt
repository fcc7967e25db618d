//! What is expected next in a capture.

use zy_read::MagicPart;

/// What is expected next.
#[derive(Clone, Copy)]
pub(crate) enum Due {
    /// This part of the magic.
    Magic(MagicPart),
    /// The connection count.
    Count,
    /// A record or the end.
    Tag,
    /// The connection of a segment.
    Connection,
    /// The length of a segment of this connection.
    Length { conn: u32 },
    /// The bytes of a segment of this connection: one, and this number of others.
    Payload { conn: u32, others: u32 },
    /// The connection of a close record.
    Closed,
    /// Nothing: the end was read.
    Nothing,
}
