//! What is counted of the calls on a shard.

/// The numbers of gets on a shard, of calls that store a value, of gets that found an item and that
/// found none, and of the shard's items.
#[derive(Clone, Copy, PartialEq, Eq)]
pub struct Tallied {
    /// Calls that get the item of a key.
    pub gets: u64,
    /// Calls that store a value, whatever their reply.
    pub sets: u64,
    /// The gets that found an item.
    pub hits: u64,
    /// The gets that found none.
    pub misses: u64,
    /// The items that the shard has.
    pub items: u64,
}
