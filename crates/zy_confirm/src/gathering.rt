//! The items of a server, taken out of its shards.
ghost use Rattle.std.specs.Prelude.{◌≡◌, ◌≤◌, ◌-◌, ℕ, List, [], length, IfOk, OnOk};
ghost use Rattle.std.specs.BTreeMap.{btree_map_len};
ghost use Rattle.std.specs.List.{AllPairs};
ghost use Rattle.mc_calls.specs.Key.{shard_of};
ghost use Rattle.zy_items.specs.Standing.{IsItemBefore};
ghost use Rattle.zy_verdict.specs.Between.{item_in};
ghost use Rattle.zy_confirm.specs.Gathering.{item_of, KeepsKeys, MovesOwn, GathersTo, TakesInOrder};
ghost use Rattle.zy_confirm.specs.Store.{store_shards, held_at, item_on_shard};

use crate::store::Store;
use mc_calls::{Item, shard_of};
use std::alloc::Global;
use std::collections::BTreeMap;
use zy_base::{Blob, NoMemory};
use zy_items::KeptItem;

impl Store {
    /// Returns the keys that have an item, in rising order, and their items.
    pub fn into_items(self) -> Result<Vec<KeptItem>, NoMemory>
        requires some { 1 ≤ store_shards self }
        requires limit { store_shards self ≤ 256 }
        ensures items { IfOk result (λ items. (key : List ℕ) → item_in items.items key ≡ held_at self key) }
        ensures rises { IfOk result (λ items. AllPairs IsItemBefore items.items) }
    {
        let (alloc, shards) = self.into_shards();
        let all = gathered(alloc, shards)?;
        in_order(alloc, all)
    }
}

// Moves the items of all shards into one map.
fn gathered(
    alloc: Global,
    shards: Vec<BTreeMap<Blob, Item>>,
) -> Result<BTreeMap<Blob, Item>, NoMemory>
    requires some { 1 ≤ length shards.items }
    requires limit { length shards.items ≤ 256 }
    ensures all { IfOk result (GathersTo shards.items (length shards.items)) }
{
    let mut shards = shards;
    let mut all = BTreeMap::new(alloc);
    match gather_into(&mut all, &mut shards) {
        Ok(()) => {
            drop(shards);
            Ok(all)
        }
        Err(refused) => {
            drop(shards);
            drop(all);
            Err(refused)
        }
    }
}

// Moves the items of all shards into an empty map.
fn gather_into(
    all: &mut BTreeMap<Blob, Item>,
    shards: &mut Vec<BTreeMap<Blob, Item>>,
) -> Result<(), NoMemory>
    requires some { 1 ≤ length shards.old.items }
    requires limit { length shards.old.items ≤ 256 }
    requires empty { all.old.entries ≡ [] }
    ensures all { OnOk result (GathersTo shards.old.items (length shards.old.items) all.new) }
{
    let count = shards.len();
    for shard in 0..count {
        move_own(all, &mut shards[shard], shard as u32, count as u32)?;
    }
    Ok(())
}

// Moves the items of a shard's keys.
fn move_own(
    all: &mut BTreeMap<Blob, Item>,
    items: &mut BTreeMap<Blob, Item>,
    shard: u32,
    shards: u32,
) -> Result<(), NoMemory>
    requires some { 1 ≤ shards }
    ensures moved { OnOk result (MovesOwn shard shards items.old all.old items.new all.new) }
    ensures empty { OnOk result (items.new.entries ≡ []) }
{
    for _ in 0..items.len() {
        move_first(all, items, shard, shards)?;
    }
    Ok(())
}

// Moves the first item, if its key is one of a shard's.
fn move_first(
    all: &mut BTreeMap<Blob, Item>,
    items: &mut BTreeMap<Blob, Item>,
    shard: u32,
    shards: u32,
) -> Result<(), NoMemory>
    requires some { 1 ≤ shards }
    ensures moved { OnOk result (MovesOwn shard shards items.old all.old items.new all.new) }
    ensures fewer { OnOk result (btree_map_len items.new ≡ btree_map_len items.old - 1) }
{
    let Some((key, item)) = items.pop_first() else {
        return Ok(());
    };
    if shard_of(key.bytes(), shards) != shard {
        drop(key);
        drop(item);
        return Ok(());
    }
    match all.insert(key, item) {
        Ok(old) => {
            drop(old);
            Ok(())
        }
        Err(refused) => {
            drop(refused);
            Err(NoMemory)
        }
    }
}

// Takes the items out of a map, in the order of their keys.
fn in_order(alloc: Global, all: BTreeMap<Blob, Item>) -> Result<Vec<KeptItem>, NoMemory>
    ensures items { IfOk result (λ items. (key : List ℕ) → item_in items.items key ≡ item_of all key) }
    ensures rises { IfOk result (λ items. AllPairs IsItemBefore items.items) }
{
    let mut all = all;
    let mut items = Vec::new(alloc);
    match take_in_order(&mut items, &mut all) {
        Ok(()) => {
            drop(all);
            Ok(items)
        }
        Err(refused) => {
            drop(all);
            drop(items);
            Err(refused)
        }
    }
}

// Moves all items of a map to the end of an empty list.
fn take_in_order(items: &mut Vec<KeptItem>, all: &mut BTreeMap<Blob, Item>) -> Result<(), NoMemory>
    requires none { items.old.items ≡ [] }
    ensures taken { OnOk result ((key : List ℕ) → item_in items.new.items key ≡ item_of all.old key) }
    ensures rises { OnOk result (AllPairs IsItemBefore items.new.items) }
{
    for _ in 0..all.len() {
        take_first(items, all)?;
    }
    Ok(())
}

// Moves the first item of a map to the end of a list.
fn take_first(items: &mut Vec<KeptItem>, all: &mut BTreeMap<Blob, Item>) -> Result<(), NoMemory>
    ensures taken { OnOk result (TakesInOrder items.old.items all.old items.new.items all.new) }
    ensures keys { OnOk result (KeepsKeys items.old.items all.old items.new.items all.new) }
    ensures fewer { OnOk result (btree_map_len all.new ≡ btree_map_len all.old - 1) }
{
    let Some((key, item)) = all.pop_first() else {
        return Ok(());
    };
    match items.push(KeptItem { key, item }) {
        Ok(()) => Ok(()),
        Err(refused) => {
            drop(refused);
            Err(NoMemory)
        }
    }
}
