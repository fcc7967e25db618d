//! Names of calls.

/// Whose call it is: the connection, the number of its session, the number of the command within
/// the session, and the number of the call within the command, all from 0.
#[derive(Clone, Copy, PartialEq, Eq)]
pub struct CallName {
    pub index: u64,
    pub session: u64,
    pub conn: u32,
    pub part: u32,
}
