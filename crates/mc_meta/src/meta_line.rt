//! What a line says as a meta command.
use crate::letters::Letters;

/// A part of a line: its bytes from a place up to another, which is not part of it.
#[derive(Clone, Copy, PartialEq, Eq)]
pub struct Span {
    /// The place of its first byte.
    pub from: usize,
    /// The place after its last byte.
    pub to: usize,
}

/// What a line says as a meta command, with places in the line.
#[derive(Drop)]
pub enum MetaLine {
    /// The line has no word, or its first word is none of `mn`, `mg`, `ms` and `md`.
    Other,
    /// The number of words is not one that the command may have.
    WrongCount,
    /// A key, a number or a flag is faulty.
    Bad,
    /// `mn`: do nothing.
    Noop,
    /// `mg`: get the item of the key. The flags are in the line's order.
    Get {
        key: Span,
        flags: Letters,
    },
    /// `ms`: store a block of this number of bytes under the key.
    Set {
        /// The place of the key.
        key: Span,
        /// The number of bytes of the value.
        bytes: u32,
        /// The flags of the item, 0 if the line has none.
        flags: u32,
        /// The unique that the item must have, if the line has one.
        unique: Option<u64>,
        /// `E`, `A`, `P`, `R` or `S`, in capitals; `S` if the line has none.
        mode: u8,
        /// The letters without a token, in the line's order.
        marks: Letters,
    },
    /// `md`: remove the item of the key. The flags are in the line's order.
    Delete {
        key: Span,
        flags: Letters,
    },
}
