//! The parts of a frame.

/// The parts of a frame, by its kind.
#[derive(Clone, Copy)]
pub enum Parts<'a> {
    /// A line that takes no block.
    Line { line: &'a [u8] },
    /// A storage line with its block.
    Block { line: &'a [u8], block: &'a [u8] },
    /// A storage line whose value is too large.
    Large { line: &'a [u8] },
    /// A line that is too long.
    Long,
}
