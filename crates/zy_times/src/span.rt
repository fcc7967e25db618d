//! When a command was sent and had ended.

/// The moment with which a command was sent, and the first at which it had ended, if it ever had.
#[derive(Clone, Copy)]
pub(crate) struct Span {
    pub(crate) sent: u32,
    pub(crate) end: Option<u32>,
}
