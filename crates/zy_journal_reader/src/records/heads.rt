//! What comes before the call of an entry.
ghost use Rattle.std.specs.Prelude.{◌≡◌, IfSome};
ghost use Rattle.zy_journal_reader.specs.Found.{HasHead, HasTag, entry_at, is_next};

use super::fields::{after, eight, four};
use crate::past::Past;
use mc_calls::{Call, CallReply, Entry, Tag};
use zy_base::{COMMAND_LIMIT, CONNECTION_LIMIT, SHARD_LIMIT, STAMP_LIMIT};

/// The stamp and the shard of an entry, and whose call it is.
#[derive(Clone, Copy)]
pub(crate) struct Head {
    pub(crate) stamp: u64,
    pub(crate) shard: u32,
    pub(crate) tag: Tag,
}

impl Head {
    // Makes the entry of this call and its reply.
    pub(crate) fn entry(self, call: Call, reply: CallReply) -> Entry
        ensures value { result ≡ entry_at self call reply }
    {
        Entry {
            tag: self.tag,
            shard: self.shard,
            call,
            reply,
            stamp: self.stamp,
        }
    }

    // Checks whether an entry may have this head.
    fn is_next(&self, past: Past) -> bool
        ensures value { result ≡ is_next self.now past }
    {
        1 <= self.stamp
            && self.stamp < STAMP_LIMIT
            && self.shard < SHARD_LIMIT
            && (past.stamp < self.stamp || (past.stamp == self.stamp && past.shard < self.shard))
            && self.tag.conn < CONNECTION_LIMIT
            && self.tag.index < COMMAND_LIMIT
    }
}

// Returns the head of an entry that may come next, and the bytes after it.
#[tactic(auto, using(crate::proofs::FoundLemmas::head_found))]
pub(crate) fn head_fields(past: Past, bytes: &[u8]) -> Option<(Head, &[u8])>
    ensures value { IfSome result (λ found. HasHead past bytes.now found.0 found.1.now) }
{
    let numbers = after(b'J', bytes)?;
    let (stamp, after_stamp) = eight(numbers)?;
    let (shard, after_shard) = four(after_stamp)?;
    let (tag, rest) = owner(after_shard)?;
    let found = Head { stamp, shard, tag };
    if !found.is_next(past) {
        return None;
    }
    Some((found, rest))
}

// Returns whose call it is, and the bytes after that.
fn owner(bytes: &[u8]) -> Option<(Tag, &[u8])>
    ensures value { IfSome result (λ found. HasTag bytes.now found.0 found.1.now) }
{
    let (conn, after_conn) = four(bytes)?;
    let (index, after_index) = eight(after_conn)?;
    let (part, rest) = four(after_index)?;
    Some((Tag { index, conn, part }, rest))
}
