//! The offsets of a text in an output.

/// The bytes of an output from one offset up to another.
#[derive(Clone, Copy)]
pub struct Text {
    /// The offset of the first byte.
    pub from: usize,
    /// The offset after the last byte.
    pub to: usize,
}
