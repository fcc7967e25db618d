//! The uniques that no answer showed, in a window.
//!
//! A server gives each item that it stores a greater unique than all before. So the items of a key that
//! are stored in a window can have the least uniques above those of the window before, except those that
//! answers showed: none is then greater than what the server gave, and the next window can begin.

use crate::pass::{FIRST_UNIQUE, Given, Pass};
use std::alloc::Global;
use zy_base::NoMemory;
use zy_sources::{NONE, Table, unique_hash};

// The last unique that was given at each key, and those that answers showed.
#[derive(Drop)]
struct Numbers {
    last: Vec<u64>,
    shown: Table,
    /// More than the number of those that answers showed.
    most: usize,
}

impl Pass {
    // Gives each item of the order whose unique no answer showed the next one at its key above this bound.
    pub(crate) fn number_all(&mut self, given: Given<'_>, bound: u64) -> Result<(), NoMemory> {
        let most = self.order.len().saturating_add(1);
        let mut numbers = Numbers::new(self.alloc, self.keys.len(), bound, most)?;
        let numbered = self.number_by(given, &mut numbers);
        drop(numbers);
        numbered
    }

    fn number_by(&mut self, given: Given<'_>, numbers: &mut Numbers) -> Result<(), NoMemory> {
        for place in 0..self.order.len() {
            let key = self.key_at(given, place);
            if let Some(placed) = self.order.get(place)
                && placed.unique <= FIRST_UNIQUE
            {
                numbers.show(key, placed.unique)?;
            }
        }
        for place in 0..self.order.len() {
            let key = self.key_at(given, place);
            if let Some(placed) = self.order.get_mut(place)
                && FIRST_UNIQUE < placed.unique
            {
                placed.unique = numbers.next(key);
            }
        }
        Ok(())
    }

    // Returns the number of the key of the call at an offset of the order.
    fn key_at(&self, given: Given<'_>, place: usize) -> u32 {
        match self.made.get(place) {
            Some(call) => given.key_of(*call),
            None => NONE,
        }
    }
}

impl Numbers {
    fn new(alloc: Global, keys: usize, bound: u64, most: usize) -> Result<Numbers, NoMemory> {
        let shown = Table::new(alloc)?;
        match Vec::from_elem(alloc, bound, keys) {
            Ok(last) => Ok(Numbers { last, shown, most }),
            Err(_) => {
                drop(shown);
                Err(NoMemory)
            }
        }
    }

    // Notes a unique that an answer showed.
    fn show(&mut self, key: u32, unique: u64) -> Result<(), NoMemory> {
        self.shown.put(unique_hash(key, unique), 0)
    }

    // Returns the next unique at a key.
    fn next(&mut self, key: u32) -> u64 {
        let Some(own) = self.last.get_mut(key as usize) else {
            return 0;
        };
        for _ in 0..self.most {
            *own = own.saturating_add(1);
            if self.shown.get(unique_hash(key, *own)) == NONE {
                break;
            }
        }
        *own
    }
}
