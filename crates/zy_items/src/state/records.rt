//! Keys and the ends of items.
ghost use Rattle.std.specs.Prelude.{◌≡◌, ◌∷◌, ◌++◌, [], true, OnOk, OnErr};
ghost use Rattle.std.specs.List.Sorted.{IsStrictlySortedBy};
ghost use Rattle.std.specs.Ordering.{nat_cmp};
ghost use Rattle.std.specs.Cmp.Lexicographic.{slice_cmp};
ghost use Rattle.zy_items.specs.Steps.{ends_item, item_keys, key_read, lasting_read, is_next, is_key_size};
ghost use Rattle.zy_items.specs.Places.{takes_memory, TakesItemsStep};

use super::ItemsState;
use crate::due::ItemsDue;
use crate::standing::KeptItem;
use mc_calls::Item;
use std::alloc::Global;
use std::collections::BTreeSet;
use std::mem;
use zy_base::{Blob, FileFault, KEY_LIMIT, NoMemory};
use zy_read::{FileFeed, NotTaken};

impl ItemsState {
    // Ends an item, which needs memory.
    pub(super) fn end_item(
        &mut self,
        alloc: Global,
        flags: u32,
        unique: u64,
        value: Blob,
    ) -> Result<Option<()>, FileFeed>
        requires due { takes_memory self.old.due ≡ true }
        ensures value { TakesItemsStep (ends_item self.old flags unique value) self.old self.new
            result }
    {
        if self.items.reserve(1).is_err() {
            drop(value);
            return Err(FileFeed::NoMemory);
        }
        let key = mem::replace(&mut self.key, Blob::new(alloc));
        self.items.push_reserved(KeptItem {
            key,
            item: Item {
                flags,
                value,
                unique,
            },
        });
        self.due = ItemsDue::Tag;
        Ok(None)
    }

    // Takes the key of an item, which is above that of the item before it.
    pub(super) fn take_key(&mut self, at: u64, key: Blob) -> Result<Option<()>, FileFeed>
        ensures value { TakesItemsStep (key_read self.old at key) self.old self.new result }
    {
        if !is_next_item(&self.items, &key) {
            drop(key);
            return Err(NotTaken::Fault(FileFault::Form { at }));
        }
        self.key = key;
        self.due = ItemsDue::Flags;
        Ok(None)
    }

    // Takes a lasting key, which is above the one before it. Needs memory.
    pub(super) fn take_lasting(&mut self, at: u64, key: Blob) -> Result<Option<()>, FileFeed>
        requires due { takes_memory self.old.due ≡ true }
        ensures value { TakesItemsStep (lasting_read self.old at key) self.old self.new result }
    {
        if !is_next_lasting(&self.lasting, &key) {
            drop(key);
            return Err(NotTaken::Fault(FileFault::Form { at }));
        }
        if add_lasting(&mut self.lasting, key).is_err() {
            return Err(NotTaken::NoMemory);
        }
        self.due = ItemsDue::Tag;
        Ok(None)
    }
}

// Checks whether the key is above that of the last item.
fn is_next_item(items: &Vec<KeptItem>, key: &Blob) -> bool
    ensures value { result ≡ is_next (item_keys items.now.items) key.now }
{
    match items.last() {
        Some(kept) => kept.key < *key,
        None => true,
    }
}

// Checks whether the key is above the last lasting one.
fn is_next_lasting(lasting: &BTreeSet<Blob>, key: &Blob) -> bool
    ensures value { result ≡ is_next lasting.now.keys key.now }
    ensures rises { IsStrictlySortedBy (slice_cmp nat_cmp) lasting.now.keys }
{
    if lasting.len() == 0 {
        return true;
    }
    match lasting.last() {
        Some(last) => *last < *key,
        None => unreachable!(),
    }
}

// Adds a lasting key that is above the last one.
fn add_lasting(lasting: &mut BTreeSet<Blob>, key: Blob) -> Result<(), NoMemory>
    requires next { is_next lasting.old.keys key ≡ true }
    requires rises { IsStrictlySortedBy (slice_cmp nat_cmp) lasting.old.keys }
    ensures ok { OnOk result (lasting.new.keys ≡ lasting.old.keys ++ key ∷ []) }
    ensures err { OnErr result (lasting.new.keys ≡ lasting.old.keys) }
{
    match lasting.insert(key) {
        Ok(_) => Ok(()),
        Err(refused) => {
            drop(refused.value);
            Err(NoMemory)
        }
    }
}

// Checks whether a key may have this length.
pub(super) fn is_key_size(length: u64) -> bool
    ensures value { result ≡ is_key_size length }
{
    1 <= length && length <= KEY_LIMIT as u64
}
