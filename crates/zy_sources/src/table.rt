//! A table of small numbers by hashes.

use crate::numbers::NONE;
use std::alloc::Global;
use zy_base::NoMemory;

#[derive(Clone, Copy)]
struct Slot {
    hash: u64,
    number: u32,
}

const EMPTY: Slot = Slot {
    hash: 0,
    number: NONE,
};

/// Small numbers by hashes.
#[derive(Drop)]
pub struct Table {
    alloc: Global,
    slots: Vec<Slot>,
    count: usize,
}

impl Table {
    /// Begins without a number. May answer `NoMemory`.
    pub fn new(alloc: Global) -> Result<Table, NoMemory> {
        Ok(Table {
            alloc,
            slots: Vec::from_elem(alloc, EMPTY, 256)?,
            count: 0,
        })
    }

    // The slot of a hash: its own, or the empty one for it.
    fn slot(&self, hash: u64) -> usize {
        let room = self.slots.len();
        if room == 0 {
            return 0;
        }
        let mut place = (hash % (room as u64)) as usize;
        for _ in 0..room {
            match self.slots.get(place) {
                Some(slot) if slot.number != NONE && slot.hash != hash => {}
                _ => break,
            }
            place = if place + 1 < room { place + 1 } else { 0 };
        }
        place
    }

    /// Returns the number of a hash; `NONE` if it has none.
    pub fn get(&self, hash: u64) -> u32 {
        match self.slots.get(self.slot(hash)) {
            Some(slot) if slot.hash == hash => slot.number,
            _ => NONE,
        }
    }

    /// Gives a hash a number. May answer `NoMemory`.
    pub fn put(&mut self, hash: u64, number: u32) -> Result<(), NoMemory> {
        if self.slots.len() <= self.count.saturating_mul(2) {
            self.grow()?;
        }
        let place = self.slot(hash);
        if let Some(slot) = self.slots.get_mut(place) {
            if slot.number == NONE {
                self.count = self.count.saturating_add(1);
            }
            *slot = Slot { hash, number };
        }
        Ok(())
    }

    // Makes room for twice as many.
    fn grow(&mut self) -> Result<(), NoMemory> {
        let room = self.slots.len().saturating_mul(2);
        let slots = Vec::from_elem(self.alloc, EMPTY, room)?;
        let before = std::mem::replace(&mut self.slots, slots);
        for slot in &before {
            if slot.number != NONE {
                let place = self.slot(slot.hash);
                if let Some(own) = self.slots.get_mut(place) {
                    *own = *slot;
                }
            }
        }
        drop(before);
        Ok(())
    }
}
