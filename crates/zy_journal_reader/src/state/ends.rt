//! The ends of entries and holds.
ghost use Rattle.std.specs.Prelude.{◌≡◌, ◌<◌, ◌≤◌, ◌+◌, ℕ, [], ◌∷◌, ◌++◌, true, vec_len, vec_capacity};
ghost use Rattle.zy_journal_reader.specs.Fields.{fresh, entry_read};
ghost use Rattle.zy_journal_reader.specs.Steps.{ends_entry, ends_hit, ends_hold};
ghost use Rattle.zy_journal_reader.specs.Standing.{TakesStep, takes_memory};

use super::JournalState;
use crate::draft::Draft;
use crate::due::{ByteField, Due};
use mc_calls::{CallReply, Entry, Hold};
use std::alloc::Global;
use std::mem;
use zy_base::Blob;
use zy_read::FileFeed;

impl JournalState {
    // Ends an entry, which needs memory.
    pub(super) fn end_entry(
        &mut self,
        alloc: Global,
        reply: CallReply,
    ) -> Result<Option<()>, FileFeed>
        requires due { takes_memory self.old.due ≡ true }
        ensures value { TakesStep (ends_entry self.old reply) self.old self.new result }
    {
        if self.entries.reserve(1).is_err() {
            return Err(FileFeed::NoMemory);
        }
        self.past.stamp = self.draft.stamp;
        self.past.shard = self.draft.shard;
        add_entry(&mut self.entries, alloc, &mut self.draft, reply);
        self.due = Due::Byte(ByteField::Tag);
        Ok(None)
    }

    // Ends the entry of a get that found this value, which needs memory.
    pub(super) fn end_hit(&mut self, alloc: Global, value: Blob) -> Result<Option<()>, FileFeed>
        requires due { takes_memory self.old.due ≡ true }
        ensures value { TakesStep (ends_hit self.old value) self.old self.new result }
    {
        let reply = CallReply::Hit {
            flags: self.draft.found_flags,
            unique: self.draft.found_unique,
            value,
        };
        self.end_entry(alloc, reply)
    }

    // Ends a hold, which needs memory.
    pub(super) fn end_hold(&mut self, alloc: Global, count: u32) -> Result<Option<()>, FileFeed>
        requires due { takes_memory self.old.due ≡ true }
        ensures value { TakesStep (ends_hold self.old count) self.old self.new result }
    {
        let hold = Hold {
            core: self.draft.core,
            conn: self.draft.conn,
            count,
        };
        if self.holds.push(hold).is_err() {
            return Err(FileFeed::NoMemory);
        }
        self.past.conn = self.draft.conn;
        self.draft = Draft::new(alloc);
        self.due = Due::Byte(ByteField::Tag);
        Ok(None)
    }
}

// Appends the entry that was read, for which there is room, and leaves nothing read.
fn add_entry(entries: &mut Vec<Entry>, alloc: Global, draft: &mut Draft, reply: CallReply)
    requires room { vec_len entries.old < vec_capacity entries.old }
    ensures entries { entries.new.items ≡ entries.old.items ++ entry_read draft.old reply ∷ [] }
    ensures draft { draft.new ≡ fresh }
{
    let read = mem::replace(draft, Draft::new(alloc));
    entries.push_reserved(read.into_entry(reply));
}
