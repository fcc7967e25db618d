//! What a server may be.

/// How many shards a server has, and whether it may lose any item.
#[derive(Clone, Copy)]
pub(crate) struct Rules {
    pub(crate) shards: u32,
    pub(crate) forget: bool,
}
