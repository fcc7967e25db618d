//! The items with which a server began.
ghost use Rattle.std.specs.Prelude.{◌≡◌, ◌≤◌, true, IfOk, IfSome};
ghost use Rattle.zy_confirm.specs.declared.outcome.After.TheVariants as Afters;
ghost use Rattle.zy_confirm.specs.Store.{store_shards, ChangesAt, HoldsNothing};
ghost use Rattle.zy_explain.specs.Beginning.{HoldsItems, Begins, MayBegin};
ghost use Rattle.zy_items.specs.Standing.{standing_of};

use crate::rules::Rules;
use mc_calls::{Item, shard_of};
use std::alloc::Global;
use zy_base::NoMemory;
use zy_confirm::Store;
use zy_items::{KeptItem, Standing};

/// Makes a store with what a server had, if it may have begun so. The store gives only greater uniques
/// from here on.
pub(crate) fn begin_store(
    alloc: Global,
    rules: Rules,
    from: &Standing,
) -> Result<Option<Store>, NoMemory>
    requires some { 1 ≤ rules.shards }
    ensures begins { IfOk result (λ found. IfSome found (Begins rules.shards (standing_of from.now))) }
    ensures may { IfOk result (λ found. IfSome found (λ store. MayBegin rules from.now.items.items)) }
{
    let Some(store) = store_with(alloc, rules, &from.items)? else {
        return Ok(None);
    };
    let mut store = store;
    if store.begin_above(from.bound) {
        return Ok(Some(store));
    }
    drop(store);
    Ok(None)
}

/// Makes a store with these items, if a server may have begun with them.
pub(crate) fn store_with(
    alloc: Global,
    rules: Rules,
    items: &[KeptItem],
) -> Result<Option<Store>, NoMemory>
    requires some { 1 ≤ rules.shards }
    ensures holds { IfOk result (λ found. IfSome found (HoldsItems rules.shards items.now)) }
    ensures may { IfOk result (λ found. IfSome found (λ store. MayBegin rules items.now)) }
{
    if !rules.warm && !items.is_empty() {
        return Ok(None);
    }
    let mut store = Store::new(alloc, rules.shards)?;
    match put_items(&mut store, rules.shards, items) {
        Ok(true) => Ok(Some(store)),
        Ok(false) => {
            drop(store);
            Ok(None)
        }
        Err(refused) => {
            drop(store);
            Err(refused)
        }
    }
}

// Puts items into a store, the last one first. Returns whether their uniques differ.
fn put_items(store: &mut Store, shards: u32, items: &[KeptItem]) -> Result<bool, NoMemory>
    requires some { 1 ≤ shards }
    requires empty { HoldsNothing shards store.old }
    ensures held { IfOk result (λ done. done ≡ true → HoldsItems shards items.now store.new) }
{
    let count = items.len();
    for done in 0..count {
        if !put_kept(store, shards, &items[count - 1 - done])? {
            return Ok(false);
        }
    }
    Ok(true)
}

// Puts an item into a store. Returns whether its unique is new.
fn put_kept(store: &mut Store, shards: u32, kept: &KeptItem) -> Result<bool, NoMemory>
    requires some { 1 ≤ shards }
    requires shards { store_shards store.old ≡ shards }
    ensures changed { IfOk result (λ done. done ≡ true → ChangesAt store.old store.new kept.now.key
        kept.now.item.unique (Afters.Put kept.now.item.flags kept.now.item.value)) }
{
    let shard = shard_of(kept.key.bytes(), shards);
    let value = kept.item.value.copy()?;
    let item = Item {
        flags: kept.item.flags,
        value,
        unique: kept.item.unique,
    };
    store.put(shard, &kept.key, item)
}
