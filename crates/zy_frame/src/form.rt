//! Which parts of its bytes a frame has.

// Which parts of its bytes a frame has.
#[derive(Clone, Copy)]
pub(crate) enum Form {
    // All bytes are its line.
    Line,
    // The first bytes are its line, and the last ones its block.
    Block,
    // All bytes are its line, whose block was not kept.
    Large,
    // None of its bytes were kept.
    Long,
}
