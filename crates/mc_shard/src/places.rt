//! Where the items of a shard are, by their keys.
ghost use Rattle.std.specs.Prelude.{◌≡◌, None, Some, is_some, IfOk, OnSome, IfNone};
ghost use Rattle.mc_shard.specs.Places.{place_in, all_keys, no_places, marked_at, line_of, AreLines, IsWith, SamePlaces, HasRoom, IsSpot, IsPut, IsSameTable};

mod evicting;
mod finding;
mod growing;

use crate::hashed::{Hashed, Sought};
use crate::line::Line;
use crate::slot::{Slot, Spot};
use crate::stored::Stored;
use evicting::make_room;
use finding::{clear_of, index_of, place_of};
use growing::{doubled, empty_lines};
use std::alloc::Global;
use std::collections::BTreeMap;
use std::marker::Model;
use std::mem;
use zy_base::NoMemory;

// How many bits of a hash are not in the number of its line, with the fewest lines: 16.
const FIRST_SHIFT: u32 = 28;

/// Where the items of keys are. Contracts see it as lines of slots and a tree.
///
/// A slot has the hash of a key and the place of its item. The key is not here but where the item
/// is stored, so calls are lent what was stored. A key that finds its line full moves another one
/// of the line to the tree, with a copy of that key. So a key is found in at most seven slots and
/// the tree, whatever the keys are. There are no lines before the first key.
#[derive(Drop)]
pub struct Places {
    shift: u32,
    lines: Vec<Line>,
    tree: BTreeMap<Hashed, u32>,
}

impl Model for Places {
    ghost use Rattle.mc_shard.specs.Places.{Table, table, IsTable};

    ghost Value = { Table };

    ghost view = { λ p. table p.shift p.lines.items p.tree.entries };

    ghost invariant = { λ p. IsTable (table p.shift p.lines.items p.tree.entries) };
}

impl Places {
    /// Begins without an entry. Takes no memory.
    pub fn new(alloc: Global) -> Places
        ensures value { result ≡ no_places }
    {
        Places {
            shift: FIRST_SHIFT,
            lines: Vec::new(alloc),
            tree: BTreeMap::new(alloc),
        }
    }

    /// Returns the place of a key's item.
    #[inline(always)]
    pub fn get<S: Stored>(&self, stored: &S, key: &Sought<'_>) -> Option<u32>
        requires lines { AreLines (S.stored stored.now) self.now.lines }
        ensures value { result ≡ place_in (all_keys (S.stored stored.now) self.now) key.now }
    {
        match self.lines.get(key.line(self.shift)) {
            Some(line) => match place_of(line, stored, key) {
                Some(place) => Some(place),
                None => self.in_tree(line.is_marked(), key),
            },
            None => None,
        }
    }

    // Returns the place that a key has in the tree, if its line is marked.
    #[inline(always)]
    fn in_tree(&self, marked: bool, key: &Sought<'_>) -> Option<u32>
        requires mark { marked ≡ marked_at self.now.lines (line_of self.now.shift key.now) }
        ensures value { result ≡ place_in self.now.tree key.now }
    {
        if marked {
            self.tree.get(key).copied()
        } else {
            None
        }
    }

    /// Finds the spot of a key, and room for it if it is new. `items` is the number of keys. If
    /// allocation fails, each key has the place that it had.
    pub fn ready<S: Stored>(
        &mut self,
        stored: &S,
        key: &Sought<'_>,
        items: u64,
    ) -> Result<Spot, NoMemory>
        requires lines { AreLines (S.stored stored.now) self.old.lines }
        ensures lines { AreLines (S.stored stored.now) self.new.lines }
        ensures same { SamePlaces (all_keys (S.stored stored.now) self.old) (all_keys (S.stored stored.now) self.new) }
        ensures room { IfOk result (HasRoom self.new key.now) }
        ensures spot { IfOk result (IsSpot (S.stored stored.now) self.new key.now) }
    {
        match self.grow(items) {
            Ok(()) => self.spot_of(stored, key),
            Err(refused) => Err(refused),
        }
    }

    // Makes the first lines, or twice the lines if they have four keys on average.
    fn grow(&mut self, items: u64) -> Result<(), NoMemory>
        ensures same { IsSameTable self.old self.new }
    {
        if self.lines.is_empty() {
            let lines = empty_lines(*self.lines.allocator())?;
            drop(mem::replace(&mut self.lines, lines));
        } else if items / 4 >= self.lines.len() as u64 && self.shift > 0 {
            if let Ok(lines) = doubled(&self.lines, self.shift - 1) {
                drop(mem::replace(&mut self.lines, lines));
                self.shift -= 1;
            }
        }
        Ok(())
    }

    // Finds the spot of a key, and room for it if it is new.
    fn spot_of<S: Stored>(&mut self, stored: &S, key: &Sought<'_>) -> Result<Spot, NoMemory>
        requires lines { AreLines (S.stored stored.now) self.old.lines }
        ensures lines { AreLines (S.stored stored.now) self.new.lines }
        ensures same { SamePlaces (all_keys (S.stored stored.now) self.old) (all_keys (S.stored stored.now) self.new) }
        ensures room { IfOk result (HasRoom self.new key.now) }
        ensures spot { IfOk result (IsSpot (S.stored stored.now) self.new key.now) }
    {
        let at = key.line(self.shift);
        if at >= self.lines.len() {
            return Err(NoMemory);
        }
        let line = &self.lines[at];
        let found = index_of(line, stored, key);
        let marked = line.is_marked();
        if let Some(slot) = found {
            return Ok(Spot::Slot(slot));
        }
        if self.in_tree(marked, key).is_some() {
            return Ok(Spot::Tree);
        }
        match make_room(&mut self.lines[at], &mut self.tree, stored) {
            Ok(()) => Ok(Spot::New),
            Err(refused) => Err(refused),
        }
    }

    /// Puts the place of a key's item into the key's spot. Takes no memory.
    #[inline(always)]
    pub fn put(&mut self, key: &Sought<'_>, spot: Spot, place: u32)
        requires room { HasRoom self.old key.now spot }
        ensures value { IsPut self.old key.now spot place self.new }
    {
        let at = key.line(self.shift);
        match spot {
            Spot::Slot(slot) => self.lines[at].replace(slot, place),
            Spot::Tree => {
                let _ = replace_in(&mut self.tree, key, place);
            }
            Spot::New => {
                let hash = key.hash();
                self.lines[at].push(Slot { hash, place });
            }
        }
    }

    /// Removes a key, and answers whether it had a place. Takes no memory.
    pub fn remove<S: Stored>(&mut self, stored: &S, key: &Sought<'_>) -> bool
        requires lines { AreLines (S.stored stored.now) self.old.lines }
        ensures lines { AreLines (S.stored stored.now) self.new.lines }
        ensures found { result ≡ is_some (place_in (all_keys (S.stored stored.now) self.old) key.now) }
        ensures value { IsWith (all_keys (S.stored stored.now) self.old) key.now None
            (all_keys (S.stored stored.now) self.new) }
    {
        let found = self.get(stored, key).is_some();
        let at = key.line(self.shift);
        if at < self.lines.len() {
            clear_of(&mut self.lines[at], stored, key);
            let _ = self.tree.remove(key);
        }
        found
    }

    /// Removes all keys. Takes no memory.
    pub fn clear(&mut self)
        ensures value { self.new ≡ no_places }
    {
        self.shift = FIRST_SHIFT;
        self.lines.clear();
        self.tree.clear();
    }
}

// Gives a key of a tree another place, and answers the one that it had.
fn replace_in(tree: &mut BTreeMap<Hashed, u32>, key: &Sought<'_>, place: u32) -> Option<u32>
    ensures old { result ≡ place_in tree.old.entries key.now }
    ensures value { OnSome result (IsWith tree.old.entries key.now (Some place) tree.new.entries) }
    ensures none { IfNone result (tree.new.entries ≡ tree.old.entries) }
{
    match tree.get_mut(key) {
        Some(old) => Some(mem::replace(old, place)),
        None => None,
    }
}
