//! A session of a connection.

use mc_parse::Command;

/// A session of a connection, as a capture shows it.
#[derive(Drop)]
pub struct Session {
    /// Its commands, in order.
    pub commands: Vec<Command>,
    /// The moments at which they were sent.
    pub sent: Vec<u32>,
    /// The moments at which its marks had come.
    pub marks: Vec<u32>,
    /// The first command that a server may take in another way: its line has a byte 0, or announces
    /// more than 1,048,576 bytes.
    pub other: Option<usize>,
}
