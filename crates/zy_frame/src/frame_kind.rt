//! Kinds of frames.
use zy_base::Blob;

/// The kind of a frame, with its bytes: what contracts see of it. A line comes without its line feed
/// and without one carriage return before that.
#[derive(Drop)]
pub enum FrameKind {
    /// A line that takes no block.
    Line { line: Blob },
    /// A storage line with its block: the value and the two bytes after it.
    Block { line: Blob, block: Blob },
    /// A storage line whose value is too large; its block was not kept.
    Large { line: Blob },
    /// A line that is too long; it was not kept.
    Long,
}
