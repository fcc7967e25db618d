//! Answers that are one line.

/// An answer that is one line at most.
#[derive(Clone, Copy)]
pub(crate) enum Answer {
    /// Nothing, if no answer is requested.
    Nothing,
    /// A line with the bytes that end it.
    Line(&'static [u8]),
    /// A number, as a line.
    Number(u64),
}
