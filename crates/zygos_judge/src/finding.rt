//! What is found of a recording.

/// What is found of a recording: a capture and a replies file.
#[derive(Clone, Copy, PartialEq, Eq)]
pub enum Finding {
    /// Some order of all calls explains it. It has this number of commands, and some mark ends this
    /// number of them.
    Explained { commands: u64, ended: u64 },
    /// No order of the calls explains it, for this reason.
    Refuted(Reason),
    /// Neither is known.
    Unknown(Open),
}

/// Why no order explains a recording. The commands of a connection are counted over all sessions.
#[derive(Clone, Copy, PartialEq, Eq)]
pub enum Reason {
    /// At this command the output is the beginning of no answer.
    Kind { conn: u32, command: u64 },
    /// The output of this session goes on after all answers, or there is no such session.
    Surplus { conn: u32, session: u64 },
    /// This record is a mark that comes before any answer of its session can be complete.
    EarlyEnd { record: u64 },
    /// No call can have made what this one needs.
    Unmet { conn: u32, command: u64, part: u64 },
    /// Too few calls can have made what this one and others need.
    Shared { conn: u32, command: u64, part: u64 },
}

/// Why it is not known whether a recording is explained.
#[derive(Clone, Copy, PartialEq, Eq)]
pub enum Open {
    /// A server may do with this command what is not followed here.
    Other { conn: u32, command: u64 },
    /// No order was found, and no call is refuted; this command was the nearest.
    Search { conn: u32, command: u64 },
}
