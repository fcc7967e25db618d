//! A shard of the store with the history of its calls.
ghost use Rattle.std.specs.Prelude.{◌≡◌, ◌+◌, ◌^◌, ◌<◌, ◌≤◌, [], length, max, IfOk, IfErr, OnOk, OnErr};
ghost use Rattle.mc_calls.specs.History.{IsHistory};
ghost use Rattle.mc_shard.specs.Shard.{kept, state_of, last_of, TallyCounts, entry_of, reply_of, with_entry, state_past};

mod calling;
mod changing;
mod fetching;
mod storing;

use crate::contents::Contents;
use crate::made::Made;
use mc_calls::{Call, CallReply, Entry, Tag};
use mc_history::{History, HistoryWalk, Ledger};
use std::alloc::Global;
use std::marker::Model;
use zy_base::NoMemory;

/// A shard of the store: the history of all calls on it, and where the items of its keys are among
/// those that the history has. Contracts see it as its number, the number of shards, and the
/// history; its items, its counter and its counts are the replay of the history.
#[derive(Drop)]
pub struct Shard {
    alloc: Global,
    number: u32,
    shards: u32,
    last: u64,
    contents: Contents,
    ledger: Ledger,
}

impl Model for Shard {
    ghost use Rattle.mc_shard.specs.Shard.{Kept, kept};
    ghost use Rattle.mc_shard.specs.Index.{IsIndexed};

    ghost Value = { Kept };

    ghost view = { λ s. kept s.number s.shards s.ledger.entries };

    ghost invariant = { λ s. IsIndexed s.number s.shards s.last s.contents s.ledger };
}

impl Shard {
    /// Makes shard `number` of `shards`, before any call. Takes no memory.
    pub fn new(alloc: Global, number: u32, shards: u32) -> Shard
        requires within { number < shards }
        requires few { shards ≤ 256 }
        ensures value { result ≡ kept number shards [] }
    {
        Shard {
            alloc,
            number,
            shards,
            last: 0,
            contents: Contents::new(alloc),
            ledger: Ledger::new(alloc, number),
        }
    }

    /// Returns the stamp of the last entry, 0 without entries.
    pub fn last(&self) -> u64
        ensures value { result ≡ last_of self.now }
    {
        self.last
    }

    /// Returns the entries of all calls, the oldest first.
    pub fn history(&self) -> HistoryWalk<'_>
        ensures value { result ≡ self.now.history }
        ensures sound { IsHistory self.now.shards self.now.number self.now.history }
        ensures count { (state_of self.now).count ≤ length self.now.history }
    {
        self.ledger.walk()
    }

    /// Returns its history, which is moved. Takes no memory.
    pub fn into_history(self) -> History
        ensures value { result ≡ self.history }
        ensures sound { IsHistory self.shards self.number result }
    {
        drop(self.contents);
        self.ledger.into_history()
    }

    /// Makes a call as `make` does, and answers a copy of its entry. The program calls `make`.
    pub fn apply(&mut self, tag: Tag, mut call: Call, seen: u64) -> Result<Entry, NoMemory>
        requires last { last_of self.old < 2 ^ 60 }
        requires seen { seen < 2 ^ 60 }
        requires count { (state_of self.old).count < 2 ^ 52 }

        // The entry.
        ensures tag { IfOk result (λ entry. entry.tag ≡ tag) }
        ensures shard { IfOk result (λ entry. entry.shard ≡ self.old.number) }
        ensures call { IfOk result (λ entry. entry.call ≡ call) }
        ensures reply { IfOk result (λ entry. entry.reply ≡ reply_of self.old call) }
        ensures counts { IfOk result (λ entry. TallyCounts call entry.reply self.old.history) }
        ensures stamp { IfOk result (λ entry. entry.stamp ≡ max (last_of self.old) seen + 1) }

        // The shard.
        ensures ok { IfOk result (λ entry. self.new ≡ with_entry self.old entry) }
        ensures state { OnOk result (state_of self.new ≡ state_past self.old call) }
        ensures err { OnErr result (self.new ≡ self.old) }
        ensures sound { IsHistory self.new.shards self.new.number self.new.history }
    {
        let shard = self.number;
        let copy = match shared_copy(&mut call) {
            Ok(copy) => copy,
            Err(refused) => {
                drop(call);
                return Err(refused);
            }
        };
        match self.make(tag, call, seen) {
            Ok(Made { reply, stamp }) => Ok(Entry {
                tag,
                shard,
                call: copy,
                reply,
                stamp,
            }),
            Err((call, refused)) => {
                drop(call);
                drop(copy);
                Err(refused)
            }
        }
    }

    /// Makes a call, with a stamp above all that the caller has seen. Its parts are moved into its
    /// entry, which is appended to the history; the answer has only its reply and the stamp. All memory is
    /// taken first: if allocation fails, the shard is as it was, and the call is handed back.
    pub fn make(&mut self, tag: Tag, call: Call, seen: u64) -> Result<Made, (Call, NoMemory)>
        requires last { last_of self.old < 2 ^ 60 }
        requires seen { seen < 2 ^ 60 }
        requires count { (state_of self.old).count < 2 ^ 52 }

        // The answer.
        ensures reply { IfOk result (λ made. made.reply ≡ reply_of self.old call) }
        ensures counts { IfOk result (λ made. TallyCounts call made.reply self.old.history) }
        ensures stamp { IfOk result (λ made. made.stamp ≡ max (last_of self.old) seen + 1) }
        ensures returned { IfErr result (λ e. e.0 ≡ call) }

        // The shard.
        ensures ok { IfOk result (λ made. self.new
            ≡ with_entry self.old (entry_of tag self.old.number call made.reply made.stamp)) }
        ensures state { OnOk result (state_of self.new ≡ state_past self.old call) }
        ensures err { OnErr result (self.new ≡ self.old) }
        ensures sound { IsHistory self.new.shards self.new.number self.new.history }
    {
        let _ = &self.number;
        match call {
            Call::Set { key, flags, value } => match self.store(tag, key, flags, value, seen) {
                Ok(stamp) => Ok(Made {
                    reply: CallReply::Stored,
                    stamp,
                }),
                Err((key, value, refused)) => Err((Call::Set { key, flags, value }, refused)),
            },
            Call::Get { key } => match self.get(tag, key, seen) {
                Ok(made) => Ok(made),
                Err((key, refused)) => Err((Call::Get { key }, refused)),
            },
            other => self.make_other(tag, other, seen),
        }
    }
}

// Lets the copies of a call share its bytes, and returns one.
fn shared_copy(call: &mut Call) -> Result<Call, NoMemory>
    ensures call { call.new ≡ call.old }
    ensures copy { IfOk result (λ copy. copy ≡ call.old) }
{
    call.share()?;
    call.copy()
}
