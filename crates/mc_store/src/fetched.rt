//! The result of `fetch`.

/// What one try of a get gave. The reply is appended to those that the caller has.
#[derive(Drop)]
pub enum Fetched {
    /// The get was made. This is the stamp of its entry, which the pass and the shard's history have.
    Made { stamp: u64 },
    /// The get was not made, since another pass had the shard. These are the word of the shard that
    /// was loaded, and the one that the exchange found; if the loaded one was odd, both are that
    /// word.
    Busy { shard: u32, loaded: u64, found: u64 },
}
