//! What the next records of a journal must not come before.

/// The stamp and the shard of the last entry, and the connection of the last hold; 0 before the
/// first ones.
#[derive(Clone, Copy)]
pub(crate) struct Past {
    pub(crate) stamp: u64,
    pub(crate) shard: u32,
    pub(crate) conn: u32,
}
