//! What an answer shows of what was said to a call.

use mc_calls::CallReply;
use zy_base::Blob;

/// What an answer shows of what was said to a call.
#[derive(Drop)]
pub enum Shown {
    /// Nothing: the call has no answer, or any reply fits it.
    Nothing,
    /// That the call did not fail: it has no answer, and cannot have failed.
    NoFailure,
    /// This reply; only the unique of a hit may be another.
    Reply { reply: CallReply },
    /// A hit, and nothing of its item.
    SomeHit,
    /// A hit with this value, and no flags.
    HitWith { value: Blob },
    /// That the call failed, or that the joined value was too large.
    Failure,
}
