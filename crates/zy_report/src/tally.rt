//! What is counted of the entries of one shard.
ghost use Rattle.std.specs.Prelude.{◌≡◌, ℕ, true, ◌++◌, ◌∷◌, [], List, OnOk, option_copied};
ghost use Rattle.mc_calls.specs.declared.entry.Entry.{Entry};
ghost use Rattle.mc_calls.specs.declared.entry.Tag.{Tag};
ghost use Rattle.std.specs.FinMap.{insert, remove};
ghost use Rattle.mc_calls.specs.Call.{key_of};
ghost use Rattle.mc_calls.specs.Counted.{KeySet, is_get, calls_with, keys_with, counted};
ghost use Rattle.mc_history.specs.Recorded.{entry_of};
ghost use Rattle.zy_report.specs.Tally.{CanCount, CountsEntries, AreKeysOf, calls_kept, none_kept};

use mc_calls::{Call, CallReply, Tallied};
use mc_history::EntryRef;
use mc_stats::Counts;
use std::alloc::Global;
use std::collections::BTreeSet;
use std::marker::Model;
use zy_base::{Blob, NoMemory};

/// What is counted of some entries of one shard. Contracts see the counts of calls, and the keys
/// that have an item after them.
#[derive(Drop)]
pub(crate) struct Tally<'j> {
    calls: Counts,
    // Borrowed from the entries.
    keys: BTreeSet<&'j Blob>,
}

impl<'j> Model for Tally<'j> {
    ghost use Rattle.std.specs.Prelude.{map};
    ghost use Rattle.zy_report.specs.Counting.{Counting};

    ghost Value = { Counting };

    ghost view = { λ t. record { calls = t.calls; keys = map (λ key. key.now) t.keys.keys } };
}

impl<'j> Tally<'j> {
    /// Begins with no entry counted. Takes no memory.
    pub(crate) fn new(alloc: Global) -> Tally<'j>
        ensures value { result ≡ none_kept }
    {
        Tally {
            calls: Counts::new(),
            keys: BTreeSet::new(alloc),
        }
    }

    /// Counts one more entry.
    pub(crate) fn add(&mut self, entry: &EntryRef<'j>) -> Result<(), NoMemory>
        requires room { CanCount self.old }
        ensures ok { OnOk result ((es : List Entry) → CountsEntries self.old es
            → CountsEntries self.new (es ++ entry.now ∷ [])) }
    {
        let exchange = entry.exchange()?;
        let added = self.add_call(entry.key(), exchange.call(), exchange.reply());
        drop(exchange);
        added
    }

    // Counts a call on a key, or a call without one, with its reply.
    fn add_call(
        &mut self,
        key: Option<&'j Blob>,
        call: &Call,
        reply: &CallReply,
    ) -> Result<(), NoMemory>
        requires room { CanCount self.old }
        requires key { option_copied key ≡ key_of call.now }
        ensures ok { OnOk result ((es : List Entry) (tag : Tag) (shard stamp : ℕ) → CountsEntries self.old es
            → CountsEntries self.new (es ++ entry_of tag shard call.now reply.now stamp ∷ [])) }
    {
        self.count_call(call, reply);
        self.keep_key(key, call, reply)
    }

    // Counts the call.
    fn count_call(&mut self, call: &Call, reply: &CallReply)
        requires room { CanCount self.old }
        ensures calls { calls_kept self.new ≡ calls_with (calls_kept self.old) call.now reply.now }
        ensures keys { self.new.keys ≡ self.old.keys }
    {
        if call.is_get() {
            self.count_get(call, reply);
        } else if call.is_set() {
            self.calls.stored();
        }
    }

    // Counts a get. The file of a journal may have one with another reply, which is neither a hit nor
    // a miss.
    fn count_get(&mut self, call: &Call, reply: &CallReply)
        requires room { CanCount self.old }
        requires get { is_get call.now ≡ true }
        ensures calls { calls_kept self.new ≡ calls_with (calls_kept self.old) call.now reply.now }
        ensures keys { self.new.keys ≡ self.old.keys }
    {
        match reply {
            CallReply::Hit { .. } => self.calls.got(true),
            CallReply::Miss => self.calls.got(false),
            _ => self.calls.gets += 1,
        }
    }

    // Keeps the keys that have an item after a call on a key, or a call without one.
    fn keep_key(
        &mut self,
        key: Option<&'j Blob>,
        call: &Call,
        reply: &CallReply,
    ) -> Result<(), NoMemory>
        requires key { option_copied key ≡ key_of call.now }
        ensures calls { self.new.calls ≡ self.old.calls }
        ensures ok { OnOk result ((keys : KeySet) → AreKeysOf keys self.old.keys
            → AreKeysOf (keys_with keys call.now reply.now) self.new.keys) }
    {
        if let Call::Flush = call {
            self.keys.clear();
            return Ok(());
        }
        match (key, reply) {
            (Some(key), CallReply::Stored | CallReply::Number { .. }) => self.add_key(key),
            (Some(key), CallReply::Deleted) => {
                self.remove_key(key);
                Ok(())
            }
            _ => Ok(()),
        }
    }

    // Adds a key, if it isn't there.
    fn add_key(&mut self, key: &'j Blob) -> Result<(), NoMemory>
        ensures calls { self.new.calls ≡ self.old.calls }
        ensures ok { OnOk result ((keys : KeySet) → AreKeysOf keys self.old.keys
            → AreKeysOf (insert keys key.now tt) self.new.keys) }
    {
        match self.keys.insert(key) {
            Ok(_) => Ok(()),
            Err(_) => Err(NoMemory),
        }
    }

    // Removes a key, if it is there.
    fn remove_key(&mut self, key: &'j Blob)
        ensures calls { self.new.calls ≡ self.old.calls }
        ensures value { (keys : KeySet) → AreKeysOf keys self.old.keys
            → AreKeysOf (remove keys key.now) self.new.keys }
    {
        self.keys.remove(&key);
    }

    /// Returns the counts.
    pub(crate) fn counted(&self) -> Tallied
        ensures value { (es : List Entry) → CountsEntries self.now es → result ≡ counted es }
    {
        Tallied {
            gets: self.calls.gets,
            sets: self.calls.sets,
            hits: self.calls.hits,
            misses: self.calls.misses,
            items: self.keys.len() as u64,
        }
    }
}
