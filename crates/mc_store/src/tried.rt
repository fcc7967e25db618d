//! The result of `make_call`.
use mc_calls::{Call, CallReply};

/// The result of one try of a call that was given by value.
#[derive(Drop)]
pub enum Tried {
    /// The call was made. This is its reply, and the stamp of its entry, which the pass and the shard's
    /// history have.
    Made {
        reply: CallReply,
        stamp: u64,
    },
    /// The call was not made, since another pass had the shard, and is handed back. The other two
    /// are the word of the shard that was loaded, and the one that the exchange found; if the
    /// loaded one was odd, both are that word.
    Busy {
        call: Call,
        shard: u32,
        loaded: u64,
        found: u64,
    },
}
