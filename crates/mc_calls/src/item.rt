//! What the store has at a key.

use zy_base::Blob;

/// What the store has at a key: the client's flags, the value, and the unique that the item got
/// when it was stored.
#[derive(PartialEq, Eq, Drop)]
pub struct Item {
    pub flags: u32,
    pub value: Blob,
    pub unique: u64,
}
