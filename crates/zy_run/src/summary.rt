//! The numbers of a run.

/// The numbers of a run. All runs of commands that are apart have the same.
#[derive(Clone, Copy, PartialEq, Eq)]
pub struct Summary {
    /// The number of commands.
    pub commands: u64,
    /// The number of calls on shards that the commands made.
    pub calls: u64,
    /// The number of bytes of all outputs together.
    pub reply_bytes: u64,
}
