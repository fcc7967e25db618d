//! Where the items of a shard are, with their counter and its counts.
ghost use Rattle.std.specs.Prelude.{◌≡◌, ◌+◌, ◌-◌, ◌^◌, ◌<◌, ◌≤◌, None, is_some, true, IfOk, if◌then◌else◌};
ghost use Rattle.mc_calls.specs.Kind.{MayAnswer};
ghost use Rattle.mc_calls.specs.Counted.{calls_with};
ghost use Rattle.mc_calls.specs.Shard.{unique_of};
ghost use Rattle.mc_stats.specs.declared.counts.Counts.{Counts};
ghost use Rattle.mc_stats.specs.Counts.{with_item, without_item, without_items};
ghost use Rattle.mc_shard.specs.Contents.{call_counts_in};
ghost use Rattle.mc_shard.specs.Places.{place_in, all_keys, no_places, had_by, AreLines, IsWith, SamePlaces, HasRoom, IsSpot, IsPut};
ghost use Rattle.mc_shard.specs.Index.{no_contents, tallied_by, noted_by};

use crate::counting::{count_put, count_removed};
use crate::hashed::Sought;
use crate::places::Places;
use crate::slot::Spot;
use crate::stored::Stored;
use mc_calls::{Call, CallReply, Tallied};
use mc_stats::Counts;
use std::alloc::Global;
use zy_base::NoMemory;

/// What a call counts as.
#[derive(Clone, Copy)]
pub enum Noted {
    /// A get, and whether it found an item.
    Get(bool),
    /// A call that stores a value.
    Set,
    /// Any other call.
    Other,
}

/// Where the items of a shard are among those that were ever stored, how many those are, and what
/// the shard counted.
#[derive(Drop)]
pub struct Contents {
    pub(crate) places: Places,
    pub(crate) count: u64,
    pub(crate) counts: Counts,
}

impl Contents {
    /// Begins without items, and with all counts 0. Takes no memory.
    pub fn new(alloc: Global) -> Contents
        ensures value { result ≡ no_contents }
    {
        Contents {
            places: Places::new(alloc),
            count: 0,
            counts: Counts::new(),
        }
    }

    /// Returns what the shard counts.
    pub fn tallied(&self) -> Tallied
        ensures value { result ≡ tallied_by self.now.counts }
    {
        Tallied {
            gets: self.counts.gets,
            sets: self.counts.sets,
            hits: self.counts.hits,
            misses: self.counts.misses,
            items: self.counts.items,
        }
    }

    /// Counts a call.
    #[inline(always)]
    pub fn note(&mut self, noted: Noted)
        requires gets { self.old.counts.gets < 2 ^ 60 }
        requires sets { self.old.counts.sets < 2 ^ 60 }
        requires hits { self.old.counts.hits ≤ self.old.counts.gets }
        requires misses { self.old.counts.misses ≤ self.old.counts.gets }
        ensures value { self.new ≡ record self.old { counts = noted_by noted self.old.counts } }
    {
        match noted {
            Noted::Get(hit) => self.counts.got(hit),
            Noted::Set => self.counts.stored(),
            Noted::Other => {}
        }
    }

    /// Returns the place of a key's item.
    #[inline(always)]
    pub fn place_of<S: Stored>(&self, stored: &S, key: &Sought<'_>) -> Option<u32>
        requires lines { AreLines (S.stored stored.now) self.now.places.lines }
        ensures value { result ≡ place_in (all_keys (S.stored stored.now) self.now.places) key.now }
    {
        self.places.get(stored, key)
    }

    /// Finds the spot of a key, and room for it if it is new. If allocation fails, each key has the
    /// place that it had.
    #[inline(always)]
    pub fn ready<S: Stored>(&mut self, stored: &S, key: &Sought<'_>) -> Result<Spot, NoMemory>
        requires lines { AreLines (S.stored stored.now) self.old.places.lines }
        ensures lines { AreLines (S.stored stored.now) self.new.places.lines }
        ensures same { SamePlaces (all_keys (S.stored stored.now) self.old.places)
            (all_keys (S.stored stored.now) self.new.places) }
        ensures room { IfOk result (HasRoom self.new.places key.now) }
        ensures spot { IfOk result (IsSpot (S.stored stored.now) self.new.places key.now) }
        ensures count { self.new.count ≡ self.old.count }
        ensures counts { self.new.counts ≡ self.old.counts }
    {
        self.places.ready(stored, key, self.counts.items)
    }

    /// Puts the place of a key's item into the key's spot, and counts the item. Takes no memory.
    #[inline(always)]
    pub fn put(&mut self, key: &Sought<'_>, spot: Spot, place: u32)
        requires room { HasRoom self.old.places key.now spot }
        requires count { self.old.count < 2 ^ 52 }
        requires items { self.old.counts.items < 2 ^ 64 - 1 }
        ensures places { IsPut self.old.places key.now spot place self.new.places }
        ensures count { self.new.count ≡ self.old.count + 1 }
        ensures counts { self.new.counts ≡ (if had_by spot then self.old.counts else with_item self.old.counts) }
    {
        self.places.put(key, spot, place);
        self.count_put(spot.had());
    }

    /// Counts an item that was stored at a key, by whether the key had one before.
    #[inline(always)]
    pub fn count_put(&mut self, had: bool)
        requires count { self.old.count < 2 ^ 52 }
        requires items { self.old.counts.items < 2 ^ 64 - 1 }
        ensures value { self.new ≡ record self.old {
          count = self.old.count + 1;
          counts = if had then self.old.counts else with_item self.old.counts;
        } }
    {
        count_put(&mut self.counts, had);
        self.count += 1;
    }

    /// Removes the item of a key.
    pub fn remove<S: Stored>(&mut self, stored: &S, key: &Sought<'_>)
        requires lines { AreLines (S.stored stored.now) self.old.places.lines }
        requires some { is_some (place_in (all_keys (S.stored stored.now) self.old.places) key.now) ≡ true
            → 1 ≤ self.old.counts.items }
        ensures lines { AreLines (S.stored stored.now) self.new.places.lines }
        ensures places { IsWith (all_keys (S.stored stored.now) self.old.places) key.now None
            (all_keys (S.stored stored.now) self.new.places) }
        ensures count { self.new.count ≡ self.old.count }
        ensures counts { self.new.counts
            ≡ (if is_some (place_in (all_keys (S.stored stored.now) self.old.places) key.now)
            then without_item self.old.counts else self.old.counts) }
    {
        let found = self.places.remove(stored, key);
        count_removed(&mut self.counts, found);
    }

    /// Removes all items.
    pub fn clear(&mut self)
        ensures value { self.new ≡ record self.old { places = no_places; counts = without_items self.old.counts } }
    {
        self.places.clear();
        self.counts.emptied();
    }
}

/// Returns what a call with this reply counts as.
pub fn note_of(call: &Call, reply: &CallReply) -> Noted
    requires answers { MayAnswer call.now reply.now }
    ensures value { (counts : Counts) → call_counts_in (noted_by result counts)
        ≡ calls_with (call_counts_in counts) call.now reply.now }
{
    if call.is_get() {
        Noted::Get(call.is_hit(reply))
    } else if call.is_set() {
        Noted::Set
    } else {
        Noted::Other
    }
}

/// Returns the unique of the next item that is stored.
#[inline(always)]
pub fn unique(number: u32, shards: u32, count: u64) -> u64
    requires within { number < shards }
    requires few { shards ≤ 256 }
    requires room { count < 2 ^ 52 }
    ensures value { result ≡ unique_of shards number (count + 1) }
{
    shards as u64 * (count + 1) + number as u64
}
