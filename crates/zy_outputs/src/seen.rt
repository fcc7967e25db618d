//! What the times of a session show of a command.

/// What the times of a session show of a command's calls.
#[derive(Clone, Copy)]
pub(crate) struct Seen {
    /// They occur in every order.
    pub(crate) sure: bool,
    /// The first moment at which the command is sent.
    pub(crate) sent: u64,
    /// A moment at which it had ended.
    pub(crate) ended: Option<u64>,
}
