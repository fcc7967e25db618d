//! The flags of an item, and the size of its value.

/// The flags and the number of bytes of the value, as a storage line gives them.
#[derive(Clone, Copy)]
pub(crate) struct Sizes {
    pub(crate) flags: u32,
    pub(crate) bytes: u32,
}
