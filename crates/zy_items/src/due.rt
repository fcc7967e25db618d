//! What is expected next in an items file.

/// What is expected next.
#[derive(Clone, Copy)]
pub(crate) enum ItemsDue {
    /// A byte of the magic.
    Magic,
    /// The bound.
    Bound,
    /// An item, a lasting key or the end.
    Tag,
    /// The length of an item's key.
    KeySize,
    /// The key of an item: one byte, and this number of others.
    Key {
        others: u64,
    },
    /// The flags of an item.
    Flags,
    /// The unique of an item with these flags.
    Unique {
        flags: u32,
    },
    /// The length of the value of this item.
    ValueSize {
        flags: u32,
        unique: u64,
    },
    /// The value of this item: one byte, and this number of others.
    Value {
        flags: u32,
        unique: u64,
        others: u64,
    },
    /// The length of a lasting key.
    LastingSize,
    /// A lasting key: one byte, and this number of others.
    Lasting {
        others: u64,
    },
    /// Nothing: the end was read.
    Nothing,
}
