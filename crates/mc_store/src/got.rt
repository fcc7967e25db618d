//! The answer of a try of a call.
use mc_calls::Entry;

/// The answer of one try of a call.
#[derive(Drop)]
pub enum Got {
    /// The call was made. This is its entry, which the pass and the shard's history now have too.
    Reply(Entry),
    /// The call was not made, since another pass had the shard: the word of the shard that was
    /// loaded, and the word that the exchange found. If the loaded word was odd, there was no
    /// exchange, and both are that word.
    Busy { shard: u32, loaded: u64, found: u64 },
}
