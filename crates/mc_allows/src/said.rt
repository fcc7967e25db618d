//! What a server says to a call.

use mc_calls::CallReply;

/// What a server says to a call: a reply, or that the call failed.
#[derive(Drop)]
pub enum Said {
    /// The server gave this reply.
    Replied { reply: CallReply },
    /// The server reported that the call failed, as when memory ran out.
    Failed,
}
