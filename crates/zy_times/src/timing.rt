//! What the times of a recording say of a journal.

/// Whether a journal fits the times of a recording.
#[derive(Clone, Copy, PartialEq, Eq)]
pub enum Timing {
    /// Each call can be given a moment between its command and its answer, in the order of the journal. The commands of
    /// all connections, and those that some mark ends.
    InTime { commands: u64, ended: u64 },
    /// This record is the first mark for which there is no answered command that is sent.
    EarlyEnd { record: u64 },
    /// This is the first entry whose command had ended before the command of an earlier entry was sent, and `after` is
    /// the first such earlier entry.
    OutOfTime { entry: u64, after: u64 },
}
