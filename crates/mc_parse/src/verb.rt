//! The verbs of storage commands.

/// How a storage command stores.
#[derive(Clone, Copy, PartialEq, Eq)]
pub enum Verb {
    /// Stores an item.
    Set,
    /// Stores an item if the key has none.
    Add,
    /// Stores an item if the key has one.
    Replace,
    /// Appends the value to the item's.
    Append,
    /// Puts the value before the item's.
    Prepend,
}
