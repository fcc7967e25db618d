//! Why a hold ends.

/// Why a hold ended.
#[derive(Drop)]
pub enum HoldEnd {
    /// No command is in progress, and no frame is known.
    Drained,
    /// 64 commands were finished in this hold, and a frame is known.
    Limit,
    /// A call or a command is left to do, but a connection has made or finished as many as it can:
    /// 2^40.
    Spent,
    /// The next call found its shard busy, as `make_call` of the store answered it.
    Busy { shard: u32, loaded: u64, found: u64 },
}
