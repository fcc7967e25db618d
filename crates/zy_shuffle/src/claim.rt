//! The answers of a claim.

/// The answer of a claim.
#[derive(Drop)]
pub enum Claim<T> {
    /// The first place of the queue is now in the hand of the pass, and this is its block.
    Took { place: u32, block: T },
    /// The loaded tail was equal to the head that was loaded before it: at the load of the tail the
    /// queue was empty.
    Empty { at: u64 },
    /// Another pass took the place first: the exchange found a head other than the one that was loaded.
    Raced { saw: u64, found: u64 },
}
