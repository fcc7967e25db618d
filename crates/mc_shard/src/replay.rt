//! A shard of the store without a history.
ghost use Rattle.std.specs.Prelude.{◌≡◌, ◌+◌, ◌^◌, ◌<◌, ◌≤◌, length, Some, IfOk, IfSome, OnOk, OnErr, option_copied};
ghost use Rattle.mc_calls.specs.Shard.{empty_state, reply_to, state_with};
ghost use Rattle.mc_shard.specs.Contents.{with_item};
ghost use Rattle.mc_shard.specs.Replay.{replaying, state_replayed};
ghost use Rattle.mc_shard.specs.Step.{effect_in};
ghost use Rattle.mc_shard.specs.Places.{all_keys, AreLines};
ghost use Rattle.mc_shard.specs.Index.{contents_in, IsIndex, place_at, found_at};

use crate::change::{Change, Step};
use crate::contents::{Contents, note_of, unique};
use crate::hashed::Sought;
use crate::step::step_of;
use mc_calls::{Call, CallReply, Item};
use mc_history::StoredItem;
use std::alloc::Global;
use std::marker::Model;
use std::mem;
use zy_base::NoMemory;

// A shard never stores more items than this.
const ITEM_LIMIT: u64 = 1 << 52;

// A shard never answers more gets than this, nor more calls that store a value.
const CALL_LIMIT: u64 = 1 << 60;

/// A shard of the store without a history, on which calls are made again. Contracts see it as its
/// number, the number of shards, and its items with their counter and its counts of calls.
#[derive(Drop)]
pub struct Replay {
    alloc: Global,
    number: u32,
    shards: u32,
    contents: Contents,
    stored: Vec<StoredItem>,
}

impl Model for Replay {
    ghost use Rattle.std.specs.Prelude.{◌<◌, ◌≤◌};
    ghost use Rattle.std.specs.Coded.{codes};
    ghost use Rattle.mc_shard.specs.Contents.{items_code};
    ghost use Rattle.mc_shard.specs.Replay.{Replayed, replaying};
    ghost use Rattle.mc_shard.specs.Places.{all_keys, AreLines};
    ghost use Rattle.mc_shard.specs.Index.{contents_in, IsIndex};

    ghost Value = { Replayed };

    ghost coded = { Prim.hlevel (codes, items_code) };

    ghost view = { λ r. replaying r.number r.shards (contents_in r.stored.items r.contents) };

    ghost invariant = { λ r. (r.number < r.shards) × (r.shards ≤ 256) × IsIndex r.stored.items r.contents };
}

impl Replay {
    /// Makes shard `number` of `shards`, before any call. Takes no memory.
    pub fn new(alloc: Global, number: u32, shards: u32) -> Replay
        requires within { number < shards }
        requires few { shards ≤ 256 }
        ensures value { result ≡ replaying number shards empty_state }
    {
        Replay {
            alloc,
            number,
            shards,
            contents: Contents::new(alloc),
            stored: Vec::new(alloc),
        }
    }

    /// Makes a call and returns its reply. May answer `NoMemory`, and does so once 2^52 items were
    /// stored, or 2^60 calls of a counted kind were made; then the shard is as it was.
    pub fn answer(&mut self, call: &Call) -> Result<CallReply, NoMemory>
        ensures reply { IfOk result (λ reply. reply ≡ reply_to self.old.state call.now) }
        ensures ok { OnOk result (self.new ≡ state_replayed self.old call.now) }
        ensures err { OnErr result (self.new ≡ self.old) }
    {
        let counts = self.contents.tallied();
        if self.contents.count >= ITEM_LIMIT
            || counts.gets >= CALL_LIMIT
            || counts.sets >= CALL_LIMIT
        {
            return Err(NoMemory);
        }
        let key = Sought::of_call(call);
        let place = place_of(&self.contents, &self.stored, &key);
        let found = item_at(&self.stored, place);
        let mut step = match step_of(self.alloc, call, counts, found) {
            Ok(step) => step,
            Err(refused) => return Err(refused),
        };
        if let Err(refused) = share(&mut step) {
            drop(step);
            return Err(refused);
        }
        let Step { reply, change } = step;
        match carry_out(
            &mut self.contents,
            &mut self.stored,
            self.number,
            self.shards,
            &key,
            change,
        ) {
            Ok(()) => {
                self.contents.note(note_of(call, &reply));
                Ok(reply)
            }
            Err(refused) => {
                drop(reply);
                Err(refused)
            }
        }
    }
}

// Lets the copies of a step's value share its bytes.
fn share(step: &mut Step) -> Result<(), NoMemory>
    ensures value { step.new ≡ step.old }
{
    match &mut step.change {
        Change::Put { flags: _, value } => value.share(),
        _ => Ok(()),
    }
}

// Returns the place of the item of a call's key, if the call has a key.
fn place_of(contents: &Contents, stored: &Vec<StoredItem>, key: &Option<Sought<'_>>) -> Option<u32>
    requires lines { AreLines stored.now.items contents.now.places.lines }
    ensures value { result ≡ place_at (all_keys stored.now.items contents.now.places) key.now }
{
    match key {
        Some(key) => contents.place_of(stored, key),
        None => None,
    }
}

// Returns the item at a place, if there is one.
fn item_at(stored: &Vec<StoredItem>, place: Option<u32>) -> Option<&Item>
    requires within { IfSome place (λ place. place < length stored.now.items) }
    ensures value { option_copied result ≡ found_at stored.now.items place }
{
    match place {
        Some(place) => Some(&stored[place as usize].item),
        None => None,
    }
}

// Makes the change of a call with this key, on shard `number` of `shards`.
fn carry_out(
    contents: &mut Contents,
    stored: &mut Vec<StoredItem>,
    number: u32,
    shards: u32,
    key: &Option<Sought<'_>>,
    change: Change,
) -> Result<(), NoMemory>
    requires within { number < shards }
    requires few { shards ≤ 256 }
    requires room { contents.old.count < 2 ^ 52 }
    requires index { IsIndex stored.old.items contents.old }
    ensures ok { OnOk result (contents_in stored.new.items contents.new
        ≡ state_with shards number (contents_in stored.old.items contents.old) (effect_in key.now change)) }
    ensures err { OnErr result (contents_in stored.new.items contents.new
        ≡ contents_in stored.old.items contents.old) }
    ensures index { IsIndex stored.new.items contents.new }
{
    match change {
        Change::Put { flags, value } => {
            let unique = unique(number, shards, contents.count);
            let item = Item {
                flags,
                value,
                unique,
            };
            match key {
                Some(key) => put(contents, stored, key, item),
                None => {
                    drop(item);
                    Ok(())
                }
            }
        }
        Change::Remove => {
            if let Some(key) = key {
                contents.remove(stored, key);
            }
            Ok(())
        }
        Change::Clear => {
            contents.clear();
            stored.clear();
            Ok(())
        }
        Change::Nothing => Ok(()),
    }
}

// Puts the item at the key, in the place of the one that the key has.
fn put(
    contents: &mut Contents,
    stored: &mut Vec<StoredItem>,
    key: &Sought<'_>,
    item: Item,
) -> Result<(), NoMemory>
    requires room { contents.old.count < 2 ^ 52 }
    requires index { IsIndex stored.old.items contents.old }
    ensures ok { OnOk result (contents_in stored.new.items contents.new
        ≡ with_item (contents_in stored.old.items contents.old) (Some key.now) item) }
    ensures err { OnErr result (contents_in stored.new.items contents.new
        ≡ contents_in stored.old.items contents.old) }
    ensures index { IsIndex stored.new.items contents.new }
{
    match contents.place_of(stored, key) {
        Some(place) => {
            drop(mem::replace(&mut stored[place as usize].item, item));
            contents.count_put(true);
            Ok(())
        }
        None => put_new(contents, stored, key, item),
    }
}

// Puts the item at the key, which has none.
fn put_new(
    contents: &mut Contents,
    stored: &mut Vec<StoredItem>,
    key: &Sought<'_>,
    item: Item,
) -> Result<(), NoMemory>
    requires room { contents.old.count < 2 ^ 52 }
    requires index { IsIndex stored.old.items contents.old }
    ensures ok { OnOk result (contents_in stored.new.items contents.new
        ≡ with_item (contents_in stored.old.items contents.old) (Some key.now) item) }
    ensures err { OnErr result (contents_in stored.new.items contents.new
        ≡ contents_in stored.old.items contents.old) }
    ensures index { IsIndex stored.new.items contents.new }
{
    let Ok(place) = u32::try_from(stored.len()) else {
        drop(item);
        return Err(NoMemory);
    };
    if stored.reserve(1).is_err() {
        drop(item);
        return Err(NoMemory);
    }
    let copy = match key.copied_key() {
        Ok(copy) => copy,
        Err(refused) => {
            drop(item);
            return Err(refused);
        }
    };
    match contents.ready(stored, key) {
        Ok(spot) => {
            stored.push_reserved(StoredItem { key: copy, item });
            contents.put(key, spot, place);
            Ok(())
        }
        Err(refused) => {
            drop(copy);
            drop(item);
            Err(refused)
        }
    }
}
