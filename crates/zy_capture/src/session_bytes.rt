//! The output of one session.

use zy_base::Blob;

/// The output of a session of a connection.
#[derive(PartialEq, Eq, Drop)]
pub struct SessionBytes {
    /// The connection's number, below 4,096.
    pub conn: u32,
    /// The session's number, from 0, below 2^31.
    pub session: u32,
    pub bytes: Blob,
}
