//! The answer to a call that was made.
use mc_calls::CallReply;

/// The answer of a shard to a call that was given by value: the reply, and the stamp of its entry.
#[derive(Drop)]
pub struct Made {
    pub reply: CallReply,
    pub stamp: u64,
}
