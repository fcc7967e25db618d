//! The items of a server at a point of an order.
ghost use Rattle.std.specs.Prelude.{◌≡◌, ◌<◌, ◌≤◌, None, true, option_copied, IfOk, OnOk};
ghost use Rattle.mc_calls.specs.Key.{shard_of};
ghost use Rattle.zy_confirm.specs.Store.{store_shards, held_at, losses_at, mark_of, NotesLoss};
ghost use Rattle.zy_confirm.specs.Store.{ChangesAt, LosesItem, Clears, HoldsNothing, BeginsAbove};

use crate::outcome::After;
use mc_calls::{Item, hash_of};
use std::alloc::Global;
use std::collections::{BTreeMap, BTreeSet};
use std::mem;
use zy_base::{Blob, NoMemory};

/// The items of each shard, and the uniques that were given at each key since its last loss.
#[derive(Drop)]
pub struct Store {
    alloc: Global,
    shards: Vec<BTreeMap<Blob, Item>>,
    /// A mark for each unique that was given. Two keys may have the same mark for different uniques;
    /// then both count as given.
    used: BTreeSet<u64>,
    /// How many losses the keys had that had some.
    losses: BTreeMap<Blob, u32>,
    /// The least unique that may be given.
    least: u64,
    /// No unique that was given is greater.
    most: u64,
}

impl Store {
    /// Begins without items.
    pub fn new(alloc: Global, shards: u32) -> Result<Store, NoMemory>
        ensures none { IfOk result (HoldsNothing shards) }
    {
        let Ok(mut made) = Vec::with_capacity(alloc, shards as usize) else {
            return Err(NoMemory);
        };
        for _ in 0..shards {
            made.push_reserved(BTreeMap::new(alloc));
        }
        Ok(Store {
            alloc,
            shards: made,
            used: BTreeSet::new(alloc),
            losses: BTreeMap::new(alloc),
            least: 0,
            most: 0,
        })
    }

    /// Gives only uniques above this one from here on. Returns whether there are any.
    pub fn begin_above(&mut self, bound: u64) -> bool
        ensures begins { result ≡ true → BeginsAbove self.old self.new bound }
    {
        let Some(least) = bound.checked_add(1) else {
            return false;
        };
        self.least = least;
        self.most = bound;
        true
    }

    /// Returns the greatest unique that was given, or the one after which they were to begin.
    pub fn most(&self) -> u64
        ensures value { result ≡ self.now.most }
    {
        self.most
    }

    // Takes the shards out.
    pub(crate) fn into_shards(self) -> (Global, Vec<BTreeMap<Blob, Item>>)
        ensures shards { result.1.items ≡ self.shards.items }
    {
        let Store {
            alloc,
            shards,
            used,
            losses,
            ..
        } = self;
        drop(used);
        drop(losses);
        (alloc, shards)
    }

    // Returns the item of a key, which is on this shard.
    pub(crate) fn found(&self, shard: u32, key: &Blob) -> Option<&Item>
        requires within { shard < store_shards self.now }
        requires own { shard ≡ shard_of key.now (store_shards self.now) }
        ensures value { option_copied result ≡ held_at self.now key.now }
    {
        self.shards[shard as usize].get(key)
    }

    // Changes what a key has, which is on this shard. Returns whether the unique of an item that is
    // stored is new and may be given.
    pub(crate) fn change(
        &mut self,
        shard: u32,
        key: &Blob,
        unique: u64,
        after: After,
    ) -> Result<bool, NoMemory>
        requires within { shard < store_shards self.old }
        requires own { shard ≡ shard_of key.now (store_shards self.old) }
        ensures changed { IfOk result (λ new. new ≡ true
            → ChangesAt self.old self.new key.now unique after) }
    {
        match after {
            After::Same => Ok(true),
            After::Gone => {
                self.remove(shard, key);
                Ok(true)
            }
            After::Put { flags, value } => self.put(
                shard,
                key,
                Item {
                    flags,
                    value,
                    unique,
                },
            ),
        }
    }

    /// Puts an item at a key, which is on this shard, if its unique is new and may be given. Returns
    /// whether it is.
    pub fn put(&mut self, shard: u32, key: &Blob, item: Item) -> Result<bool, NoMemory>
        requires within { shard < store_shards self.old }
        requires own { shard ≡ shard_of key.now (store_shards self.old) }
        ensures changed { IfOk result (λ new. new ≡ true
            → ChangesAt self.old self.new key.now item.unique (After.Put item.flags item.value)) }
    {
        let unique = item.unique;
        if unique < self.least {
            drop(item);
            return Ok(false);
        }
        let mark = self.mark_of(key, unique);
        match self.used.insert(mark) {
            Ok(true) => {}
            Ok(false) => {
                drop(item);
                return Ok(false);
            }
            Err(_) => {
                drop(item);
                return Err(NoMemory);
            }
        }
        let key = match key.copy() {
            Ok(key) => key,
            Err(refused) => {
                drop(item);
                return Err(refused);
            }
        };
        match self.shards[shard as usize].insert(key, item) {
            Ok(old) => {
                drop(old);
                self.most = greater(self.most, unique);
                Ok(true)
            }
            Err(refused) => {
                drop(refused);
                Err(NoMemory)
            }
        }
    }

    // Removes the item of a key, which is on this shard.
    fn remove(&mut self, shard: u32, key: &Blob)
        requires within { shard < store_shards self.old }
        requires own { shard ≡ shard_of key.now (store_shards self.old) }
        ensures changed { ChangesAt self.old self.new key.now 0 After.Gone }
    {
        drop(self.shards[shard as usize].remove(key));
    }

    /// Loses the item of a key, which is on this shard. Its uniques may be given again.
    pub fn lose(&mut self, shard: u32, key: &Blob) -> Result<(), NoMemory>
        requires within { shard < store_shards self.old }
        requires own { shard ≡ shard_of key.now (store_shards self.old) }
        ensures lost { OnOk result (LosesItem self.old self.new key.now) }
    {
        self.remove(shard, key);
        self.note_loss(key)
    }

    // Notes a loss of a key's item.
    fn note_loss(&mut self, key: &Blob) -> Result<(), NoMemory>
        ensures noted { OnOk result (NotesLoss self.old self.new key.now) }
    {
        let losses = self.losses_at(key).wrapping_add(1);
        let key = key.copy()?;
        match self.losses.insert(key, losses) {
            Ok(_) => Ok(()),
            Err(refused) => {
                drop(refused);
                Err(NoMemory)
            }
        }
    }

    // Returns how many losses a key had.
    fn losses_at(&self, key: &Blob) -> u32
        ensures value { result ≡ losses_at self.now key.now }
    {
        match self.losses.get(key) {
            Some(losses) => *losses,
            None => 0,
        }
    }

    // Returns the mark of a key's unique since the key's last loss.
    fn mark_of(&self, key: &Blob, unique: u64) -> u64
        ensures value { result ≡ mark_of self.now key.now unique }
    {
        let round = hash_of(key.bytes()) as u64 + self.losses_at(key) as u64;
        unique.wrapping_add(round.wrapping_mul(4_294_967_296))
    }

    // Removes all items of a shard.
    pub(crate) fn clear(&mut self, shard: u32)
        requires within { shard < store_shards self.old }
        ensures cleared { Clears self.old self.new shard }
    {
        let alloc = self.alloc;
        drop(mem::replace(&mut self.shards[shard as usize], BTreeMap::new(alloc)));
    }
}

// Returns the greater of two numbers.
fn greater(one: u64, other: u64) -> u64
    ensures greater { (one ≤ result) × (other ≤ result) }
{
    if one < other { other } else { one }
}
