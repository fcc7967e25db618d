//! What is found of an output.

/// What is found of the output of a session.
#[derive(Clone, Copy)]
pub(crate) enum Finding {
    /// What is left of it neither begins with an answer of this command, nor begins one.
    Kind { conn: u32, session: u64, index: u64 },
    /// It goes on after the answers of all commands, or belongs to no session of the capture.
    Surplus { conn: u32, session: u64 },
    /// The mark of this record comes before the command that it ends.
    EarlyEnd { record: u64 },
    /// A server may have answered this command in a way that is not followed here.
    Other { conn: u32, session: u64, index: u64 },
}
