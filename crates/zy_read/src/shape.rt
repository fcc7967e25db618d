//! The shapes of fields.

/// How many bytes a field has.
#[derive(Clone, Copy)]
pub enum Shape {
    /// One.
    Byte,
    /// Four, usually a number.
    Four,
    /// Eight, usually a number.
    Eight,
    /// One byte, and this number of others. They may need memory.
    Run(u64),
}
