//! Calls, as a recording shows them.

use mc_allows::{CallName, Shown};
use mc_calls::Call;

/// A call, as a recording shows it.
#[derive(Drop)]
pub struct Observed {
    pub name: CallName,
    /// The shard on which it is made.
    pub shard: u32,
    pub call: Call,
    /// What its answer shows of what was said to it.
    pub shown: Shown,
    /// The unique that its answer shows, of the item that it found.
    pub unique: Option<u64>,
    /// It occurs in every order.
    pub sure: bool,
    /// The first moment at which its command is sent.
    pub sent: u64,
    /// The first moment at which its command is ended, if it ever is.
    pub ended: Option<u64>,
}
