//! Entries of the journal: calls with their replies.
ghost use Rattle.std.specs.Prelude.{◌≡◌, IfOk};

use crate::call::Call;
use crate::call_reply::CallReply;
use zy_base::{Items, NoMemory};

/// Whose call it is: the connection, the number of its command, and the call's number within the
/// command, all from 0.
#[derive(Clone, Copy, PartialEq, Eq)]
pub struct Tag {
    // The index comes first, so that a tag has no gaps.
    pub index: u64,
    pub conn: u32,
    pub part: u32,
}

/// One call on a shard, with what the shard answered. Along a shard, and along the calls of a
/// connection, stamps rise.
#[derive(PartialEq, Eq, Drop)]
pub struct Entry {
    pub tag: Tag,
    pub shard: u32,
    pub call: Call,
    pub reply: CallReply,
    pub stamp: u64,
}

impl Entry {
    /// Copies the entry.
    pub fn copy(&self) -> Result<Entry, NoMemory>
        ensures value { IfOk result (λ copy. copy ≡ self.now) }
    {
        let call = self.call.copy()?;
        match self.reply.copy() {
            Ok(reply) => Ok(Entry {
                tag: self.tag,
                shard: self.shard,
                call,
                reply,
                stamp: self.stamp,
            }),
            Err(refused) => {
                drop(call);
                Err(refused)
            }
        }
    }
}

/// A list of entries.
pub type Entries = Items<Entry>;
