//! The reply to a call, and its change of the items before that is made.
use mc_calls::CallReply;
use zy_base::Blob;

/// What a call changes in the items, at its key.
#[derive(Drop)]
pub enum Change {
    /// Nothing.
    Nothing,
    /// The key gets an item with these flags and this value.
    Put { flags: u32, value: Blob },
    /// The key's item is removed.
    Remove,
    /// All items are removed.
    Clear,
}

/// The reply to a call, and the change that it makes.
#[derive(Drop)]
pub struct Step {
    pub reply: CallReply,
    pub change: Change,
}
