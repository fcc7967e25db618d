//! What a server may do to the item of a key without a call.

/// What a server may do to the item of a key without a call.
#[derive(Clone, Copy)]
pub struct Store {
    /// It may begin with an item, and lose it as long as it is there.
    pub warm: bool,
    /// It may lose any item.
    pub forget: bool,
}
