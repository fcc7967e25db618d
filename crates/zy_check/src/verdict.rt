//! Verdicts on a journal and outputs.

/// Whether a journal and outputs are those of a run.
#[derive(Clone, Copy, PartialEq, Eq)]
pub enum Verdict {
    /// They are.
    Yes,
    /// They are not, and this is the first cause.
    No(Cause),
}

/// Why a journal and outputs are not those of a run. If there are several causes, the first one in
/// this list counts, but among the first two the one with the smaller entry.
#[derive(Clone, Copy, PartialEq, Eq)]
pub enum Cause {
    /// This entry is not the next call of its connection.
    NotNext { entry: u64 },
    /// This entry has another reply than its shard gave.
    WrongReply { entry: u64 },
    /// The command with this index, of this connection, has a call without an entry.
    Missing { conn: u32, index: u64 },
    /// The output of this session is not the run's: the first `at` bytes agree.
    WrongOutput { conn: u32, session: u32, at: u64 },
    /// The holds of this connection do not add up to the number of its commands.
    WrongHolds { conn: u32 },
}
