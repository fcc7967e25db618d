//! What the server of a recording may have been.

/// What the server of a recording may have been.
#[derive(Clone, Copy)]
pub struct Rules {
    /// How many shards it has.
    pub shards: u32,
    /// It may have begun with items.
    pub warm: bool,
    /// It may have lost any item at any time.
    pub forget: bool,
}
