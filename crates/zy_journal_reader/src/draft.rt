//! The record that is being read.
ghost use Rattle.std.specs.Prelude.{◌≡◌};
ghost use Rattle.zy_journal_reader.specs.Fields.{fresh, entry_read};

use mc_calls::{CallKind, CallReply, Entry, Tag, Tallied};
use std::alloc::Global;
use zy_base::Blob;

/// What was read of a record so far; 0 and empty if a field was not read.
#[derive(Drop)]
pub(crate) struct Draft {
    pub(crate) stamp: u64,
    pub(crate) shard: u32,
    pub(crate) conn: u32,
    pub(crate) index: u64,
    pub(crate) part: u32,
    pub(crate) kind: CallKind,
    pub(crate) key: Blob,
    pub(crate) flags: u32,
    /// The CAS value of a cas, or the amount of an incr or a decr.
    pub(crate) number: u64,
    pub(crate) value: Blob,
    /// The flags and the CAS value that a get found.
    pub(crate) found_flags: u32,
    pub(crate) found_unique: u64,
    /// The numbers of a tally.
    pub(crate) counts: Tallied,
    /// The core of a hold.
    pub(crate) core: u32,
    /// The length of the bytes that are expected.
    pub(crate) size: u32,
}

impl Draft {
    // Begins with nothing read.
    pub(crate) fn new(alloc: Global) -> Draft
        ensures value { result ≡ fresh }
    {
        Draft {
            stamp: 0,
            shard: 0,
            conn: 0,
            index: 0,
            part: 0,
            kind: CallKind::Flush,
            key: Blob::new(alloc),
            flags: 0,
            number: 0,
            value: Blob::new(alloc),
            found_flags: 0,
            found_unique: 0,
            counts: Tallied {
                gets: 0,
                sets: 0,
                hits: 0,
                misses: 0,
                items: 0,
            },
            core: 0,
            size: 0,
        }
    }

    // Makes the entry that was read, with this reply.
    pub(crate) fn into_entry(self, reply: CallReply) -> Entry
        ensures value { result ≡ entry_read self reply }
    {
        Entry {
            tag: Tag {
                conn: self.conn,
                index: self.index,
                part: self.part,
            },
            shard: self.shard,
            stamp: self.stamp,
            call: self
                .kind
                .call(self.key, self.flags, self.number, self.value),
            reply,
        }
    }
}
