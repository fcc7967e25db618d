//! A key while calls are made.

use crate::pass::Given;
use std::alloc::Global;
use zy_base::NoMemory;
use zy_refute::Observed;
use zy_search::{Decided, FirstItem, Held, first_item, held_after};
use zy_sources::{NONE, expected, found_another, mixed, small, unique_hash};

// How many uniques are noted that an item does not have.
const MOST_OTHERS: usize = 64;

/// A key while calls are made.
#[derive(Drop)]
pub(crate) struct AtKey {
    /// A call at the key.
    pub(crate) call: u32,
    pub(crate) held: Held,
    /// The call that made the item, or `NONE`.
    pub(crate) maker: u32,
    /// The uniques that the item does not have.
    pub(crate) others: Vec<u64>,
    /// The first and the last call that waits at the key, by their sendings.
    pub(crate) head: u32,
    pub(crate) tail: u32,
    pub(crate) shard: u32,
    /// Its item may be lost between any two calls.
    pub(crate) forget: bool,
    /// The number of losses.
    losses: u32,
    /// The item that was there at first, if a call showed it, and its unique.
    pub(crate) first: Option<FirstItem>,
    pub(crate) unique: Option<u64>,
}

/// Returns all keys, before any call. May answer `NoMemory`.
pub(crate) fn keys_at_first(alloc: Global, given: Given<'_>) -> Result<Vec<AtKey>, NoMemory> {
    let mut keys = Vec::new(alloc);
    match add_keys(alloc, given, &mut keys) {
        Ok(()) => Ok(keys),
        Err(refused) => {
            drop(keys);
            Err(refused)
        }
    }
}

fn add_keys(alloc: Global, given: Given<'_>, keys: &mut Vec<AtKey>) -> Result<(), NoMemory> {
    let known = &given.links.keys;
    for number in 0..known.first.len() {
        let call = known.first[number];
        let (shard, key) = match given.get(call) {
            Some(one) => (one.shard, one.call.key()),
            None => (NONE, None),
        };
        let forget = match known.forget.get(number) {
            Some(forget) => *forget,
            None => false,
        };
        let guesses = &given.learned.guesses;
        let first = guesses.item(small(number))?;
        match guesses.held(given.rules.firsts(), small(number), key) {
            Ok(held) => keys.push(at_first(alloc, held, first, call, shard, forget))?,
            Err(refused) => {
                drop(first);
                return Err(refused);
            }
        }
    }
    Ok(())
}

// Returns a key before any call.
fn at_first(
    alloc: Global,
    held: Held,
    first: Option<FirstItem>,
    call: u32,
    shard: u32,
    forget: bool,
) -> AtKey {
    AtKey {
        call,
        held,
        maker: NONE,
        others: Vec::new(alloc),
        head: NONE,
        tail: NONE,
        shard,
        forget,
        losses: 0,
        first,
        unique: None,
    }
}

impl AtKey {
    // Returns the hash of a unique of the key, since its last loss.
    pub(crate) fn unique_hash(&self, key: u32, unique: u64) -> u64 {
        mixed(unique_hash(key, unique), self.losses as u64)
    }

    // Makes a call, at this offset of the order.
    pub(crate) fn take(
        &mut self,
        alloc: Global,
        call: u32,
        one: &Observed,
        decided: Decided,
        place: usize,
    ) -> Result<(), NoMemory> {
        let first = first_item(alloc, self.held.sight(), one, decided.first)?;
        self.begin_with(first);
        let was_nothing = self.held.is_nothing();
        let after = held_after(alloc, self.held.sight(), one, decided, place)?;
        self.become_held(after);
        if decided.lost {
            self.losses = self.losses.saturating_add(1);
        }
        if decided.stores() || (self.held.is_nothing() && !was_nothing) {
            self.maker = call;
            self.others.clear();
            Ok(())
        } else {
            self.note_other(one)
        }
    }

    // Takes what the key has after a call, if that is something else.
    fn become_held(&mut self, after: Option<Held>) {
        match after {
            Some(held) => drop(std::mem::replace(&mut self.held, held)),
            None => {}
        }
    }

    // Notes the unique that the item does not have, if a call shows that.
    fn note_other(&mut self, one: &Observed) -> Result<(), NoMemory> {
        if self.others.len() < MOST_OTHERS
            && found_another(one)
            && let Some(unique) = expected(one)
        {
            self.others.push(unique)?;
        }
        Ok(())
    }

    // Notes the item that was there at first, if a call shows it.
    fn begin_with(&mut self, first: Option<FirstItem>) {
        if first.is_some() {
            drop(std::mem::replace(&mut self.first, first));
        } else {
            drop(first);
        }
    }

    // Says that the key has this, whoever made it.
    pub(crate) fn hold(&mut self, held: Held) {
        drop(std::mem::replace(&mut self.held, held));
        self.maker = NONE;
        self.others.clear();
    }
}
