//! What is expected next in a replies file.

use zy_read::MagicPart;

/// What is expected next.
#[derive(Clone, Copy)]
pub(crate) enum RepliesDue {
    /// This part of the magic.
    Magic(MagicPart),
    /// A record or the end.
    Tag,
    /// The connection of a record.
    Connection,
    /// The session of a record of this connection, in version 2.
    Session {
        conn: u32,
    },
    /// The length of the output of this session.
    Length {
        conn: u32,
        session: u32,
    },
    /// The output of this session: one byte, and this number of others.
    Output {
        conn: u32,
        session: u32,
        others: u64,
    },
    /// Nothing: the end was read.
    Nothing,
}
