//! Gets: a hit keeps nothing but its compact entry, and a miss its key.
ghost use Rattle.std.specs.Prelude.{◌≡◌, ◌+◌, ◌^◌, ◌<◌, ◌∷◌, [], ◌++◌, length, max, IfOk, IfErr, OnOk, OnErr, IfSome, Some, None};
ghost use Rattle.mc_calls.specs.declared.call.Call.TheVariants.{Get};
ghost use Rattle.mc_calls.specs.Bounds.{FitsReply};
ghost use Rattle.mc_calls.specs.Key.{hash_of};
ghost use Rattle.mc_calls.specs.History.{IsHistory};
ghost use Rattle.mc_history.specs.Recorded as ledgers;
ghost use Rattle.mc_shard.specs.Shard.{state_of, last_of, entry_of, reply_of, with_entry, state_past};
ghost use Rattle.mc_shard.specs.Places.{IsFor};
ghost use Rattle.mc_shard.specs.Index.{reply_at};

use super::Shard;
use crate::contents::Noted;
use crate::hashed::Sought;
use crate::made::Made;
use mc_calls::{CallReply, Tag, hash_of};
use mc_history::Ledger;
use zy_base::{Blob, NoMemory};

impl Shard {
    /// Gets the item of a key, as `make` does by `Call::Get`. The key is lent, with its hash. The
    /// reply is appended to `replies`; the answer is the stamp of the entry. All memory is taken
    /// first: if allocation fails, the shard and the replies are as they were.
    pub fn fetch(
        &mut self,
        tag: Tag,
        key: &Blob,
        hash: u32,
        seen: u64,
        replies: &mut Vec<CallReply>,
    ) -> Result<u64, NoMemory>
        requires last { last_of self.old < 2 ^ 60 }
        requires seen { seen < 2 ^ 60 }
        requires hash { hash ≡ hash_of key.now }

        // The answer.
        ensures reply { OnOk result (replies.new.items
            ≡ replies.old.items ++ reply_of self.old (Get key.now) ∷ []) }
        ensures stamp { IfOk result (λ stamp. stamp ≡ max (last_of self.old) seen + 1) }

        // The shard.
        ensures ok { IfOk result (λ stamp. self.new ≡ with_entry self.old
            (entry_of tag self.old.number (Get key.now) (reply_of self.old (Get key.now)) stamp)) }
        ensures state { OnOk result (state_of self.new ≡ state_past self.old (Get key.now)) }
        ensures err { OnErr result (self.new ≡ self.old) }
        ensures kept { OnErr result (replies.new.items ≡ replies.old.items) }
        ensures sound { IsHistory self.new.shards self.new.number self.new.history }
    {
        let stamp = self.last.max(seen) + 1;
        let found = self
            .contents
            .place_of(&self.ledger, &Sought::with_hash(key, hash));
        if replies.reserve(1).is_err() {
            return Err(NoMemory);
        }
        let reply = match note_get(&mut self.ledger, tag, stamp, key, found) {
            Ok(reply) => reply,
            Err(refused) => return Err(refused),
        };
        replies.push_reserved(reply);
        self.contents.note(Noted::Get(found.is_some()));
        self.last = stamp;
        Ok(stamp)
    }

    // Gets the item of a key, which is moved into the entry of a miss.
    pub(super) fn get(&mut self, tag: Tag, key: Blob, seen: u64) -> Result<Made, (Blob, NoMemory)>
        requires last { last_of self.old < 2 ^ 60 }
        requires seen { seen < 2 ^ 60 }
        ensures reply { IfOk result (λ made. made.reply ≡ reply_of self.old (Get key)) }
        ensures stamp { IfOk result (λ made. made.stamp ≡ max (last_of self.old) seen + 1) }
        ensures returned { IfErr result (λ e. e.0 ≡ key) }
        ensures ok { IfOk result (λ made. self.new
            ≡ with_entry self.old (entry_of tag self.old.number (Get key) made.reply made.stamp)) }
        ensures state { OnOk result (state_of self.new ≡ state_past self.old (Get key)) }
        ensures err { OnErr result (self.new ≡ self.old) }
        ensures sound { IsHistory self.new.shards self.new.number self.new.history }
    {
        let stamp = self.last.max(seen) + 1;
        let hash = hash_of(key.bytes());
        let found = self
            .contents
            .place_of(&self.ledger, &Sought::with_hash(&key, hash));
        let reply = match take_get(&mut self.ledger, tag, stamp, key, found) {
            Ok(reply) => reply,
            Err(back) => return Err(back),
        };
        self.contents.note(Noted::Get(found.is_some()));
        self.last = stamp;
        Ok(Made { reply, stamp })
    }
}

// Appends the entry of a get that found the item at this place or none, and returns its reply.
#[inline(always)]
fn note_get(
    ledger: &mut Ledger,
    tag: Tag,
    stamp: u64,
    key: &Blob,
    found: Option<u32>,
) -> Result<CallReply, NoMemory>
    requires found { IfSome found (IsFor ledger.old.stored key.now) }
    ensures ok { OnOk result (ledger.new
        ≡ ledgers.with_entry ledger.old tag stamp (Get key.now) (reply_at ledger.old.stored found)) }
    ensures err { OnErr result (ledger.new ≡ ledger.old) }
    ensures reply { IfOk result (λ reply. reply ≡ reply_at ledger.old.stored found) }
    ensures part { tag.part < 2 ^ 32 }
    ensures fits { OnOk result (FitsReply (reply_at ledger.old.stored found)) }
{
    let _part = tag.part;
    match found {
        Some(place) => note_hit(ledger, tag, stamp, place),
        None => note_miss(ledger, tag, stamp, key),
    }
}

// Does as `note_get`. The key is moved into the entry of a miss; if allocation fails, it is handed
// back.
#[inline(always)]
fn take_get(
    ledger: &mut Ledger,
    tag: Tag,
    stamp: u64,
    key: Blob,
    found: Option<u32>,
) -> Result<CallReply, (Blob, NoMemory)>
    requires found { IfSome found (IsFor ledger.old.stored key) }
    ensures ok { OnOk result (ledger.new
        ≡ ledgers.with_entry ledger.old tag stamp (Get key) (reply_at ledger.old.stored found)) }
    ensures err { OnErr result (ledger.new ≡ ledger.old) }
    ensures reply { IfOk result (λ reply. reply ≡ reply_at ledger.old.stored found) }
    ensures part { tag.part < 2 ^ 32 }
    ensures fits { OnOk result (FitsReply (reply_at ledger.old.stored found)) }
    ensures returned { IfErr result (λ e. e.0 ≡ key) }
{
    let _part = tag.part;
    match found {
        Some(place) => match note_hit(ledger, tag, stamp, place) {
            Ok(reply) => {
                drop(key);
                Ok(reply)
            }
            Err(refused) => Err((key, refused)),
        },
        None => match ledger.push_miss(tag, stamp, key) {
            Ok(()) => Ok(CallReply::Miss),
            Err(back) => Err(back),
        },
    }
}

// Appends the entry of a get that found the item at this place, and returns its reply.
#[inline(always)]
fn note_hit(ledger: &mut Ledger, tag: Tag, stamp: u64, place: u32) -> Result<CallReply, NoMemory>
    requires within { place < length ledger.old.stored }
    ensures ok { OnOk result (ledger.new ≡ ledgers.with_hit ledger.old tag stamp place) }
    ensures err { OnErr result (ledger.new ≡ ledger.old) }
    ensures reply { IfOk result (λ reply. reply ≡ reply_at ledger.old.stored (Some place)) }
    ensures fits { OnOk result (FitsReply (reply_at ledger.old.stored (Some place))) }
{
    let reply = match hit(ledger, place) {
        Ok(reply) => reply,
        Err(refused) => return Err(refused),
    };
    match ledger.push_hit(tag, stamp, place) {
        Ok(()) => Ok(reply),
        Err(refused) => {
            drop(reply);
            Err(refused)
        }
    }
}

// Returns the hit that is the item at this place.
#[inline(always)]
fn hit(ledger: &Ledger, place: u32) -> Result<CallReply, NoMemory>
    requires within { place < length ledger.now.stored }
    ensures value { IfOk result (λ reply. reply ≡ reply_at ledger.now.stored (Some place)) }
    ensures fits { IfOk result FitsReply }
{
    let item = &ledger.stored(place).item;
    let flags = item.flags;
    let unique = item.unique;
    numbers_fit(flags, unique);
    let value = match item.value.copy() {
        Ok(value) => value,
        Err(refused) => return Err(refused),
    };
    Ok(CallReply::Hit {
        flags,
        unique,
        value,
    })
}

// Appends the entry of a get that found no item, with a copy of its key, and returns its reply.
#[inline(always)]
fn note_miss(ledger: &mut Ledger, tag: Tag, stamp: u64, key: &Blob) -> Result<CallReply, NoMemory>
    ensures ok { OnOk result (ledger.new ≡ ledgers.with_miss ledger.old tag stamp key.now) }
    ensures err { OnErr result (ledger.new ≡ ledger.old) }
    ensures reply { IfOk result (λ reply. reply ≡ reply_at ledger.old.stored None) }
{
    let key = match key.copy() {
        Ok(key) => key,
        Err(refused) => return Err(refused),
    };
    match ledger.push_miss(tag, stamp, key) {
        Ok(()) => Ok(CallReply::Miss),
        Err((key, refused)) => {
            drop(key);
            Err(refused)
        }
    }
}

// Does nothing. Shows that flags and a unique fit their types.
#[inline(always)]
fn numbers_fit(flags: u32, unique: u64)
    ensures flags { flags < 2 ^ 32 }
    ensures unique { unique < 2 ^ 64 }
{
    let _flags = flags;
    let _unique = unique;
}
