//! The calls of the keys at which a pass failed.

use crate::pass::{Given, Pass};
use mc_calls::Call;
use std::alloc::Global;
use zy_base::NoMemory;
use zy_sources::{NONE, at, end_of, put, small};

/// The calls of a key.
#[derive(Drop)]
pub(crate) struct KeyList {
    key: u32,
    /// All, by their sendings.
    pub(crate) sent: Vec<u32>,
    /// Those that were made, in their order, and for each the number of all calls that were made before it.
    pub(crate) made: Vec<u32>,
    places: Vec<usize>,
}

/// The calls of some keys.
#[derive(Drop)]
pub(crate) struct KeyLists {
    pub(crate) lists: Vec<KeyList>,
    /// For each key the offset of its list, or `NONE`.
    pub(crate) places: Vec<u32>,
}

impl KeyList {
    // Returns how many of its calls were made before this number of all calls.
    pub(crate) fn made_before(&self, count: usize) -> usize {
        let mut low = 0;
        let mut high = self.places.len();
        for _ in 0..self.places.len() {
            if high <= low {
                break;
            }
            let middle = low.saturating_add(high.saturating_sub(low) / 2);
            match self.places.get(middle) {
                Some(place) if *place < count => low = middle.saturating_add(1),
                _ => high = middle,
            }
        }
        low
    }

    // Returns the moment at which this number of calls and one more were sent after a call had ended.
    pub(crate) fn end_of(&self, given: Given<'_>, call: u32, count: usize) -> u64 {
        let Some(one) = given.observed.get(call as usize) else {
            return u64::MAX;
        };
        let mut left = count;
        for other in &self.sent {
            if let Some(later) = given.observed.get(*other as usize)
                && end_of(one) <= later.sent
            {
                if left == 0 {
                    return later.sent;
                }
                left = left.saturating_sub(1);
            }
        }
        u64::MAX
    }
}

/// Returns the calls of the keys at which a pass failed. May answer `NoMemory`.
pub(crate) fn lists_of(alloc: Global, given: Given<'_>, pass: &Pass) -> Result<KeyLists, NoMemory> {
    let mut lists = KeyLists {
        lists: Vec::new(alloc),
        places: Vec::from_elem(alloc, NONE, pass.keys.len())?,
    };
    match lists.fill(alloc, given, pass) {
        Ok(()) => Ok(lists),
        Err(refused) => {
            drop(lists);
            Err(refused)
        }
    }
}

impl KeyLists {
    // Adds the calls of the keys at which a pass failed.
    fn fill(&mut self, alloc: Global, given: Given<'_>, pass: &Pass) -> Result<(), NoMemory> {
        for failure in &pass.failures {
            self.add_key(alloc, pass, failure.key)?;
        }
        for call in &given.links.sorted.by_sent {
            self.add(given, pass, *call, None)?;
        }
        for place in 0..pass.made.len() {
            self.add(given, pass, pass.made[place], Some(place))?;
        }
        Ok(())
    }

    // Adds a list for a key, if there is none.
    fn add_key(&mut self, alloc: Global, pass: &Pass, key: u32) -> Result<(), NoMemory> {
        if at(self.places.as_slice(), key) == NONE && (key as usize) < pass.keys.len() {
            put(self.places.as_mut_slice(), key, small(self.lists.len()));
            self.lists.push(KeyList {
                key,
                sent: Vec::new(alloc),
                made: Vec::new(alloc),
                places: Vec::new(alloc),
            })?;
        }
        Ok(())
    }

    // Adds a call to the lists that it belongs to.
    fn add(
        &mut self,
        given: Given<'_>,
        pass: &Pass,
        call: u32,
        made: Option<usize>,
    ) -> Result<(), NoMemory> {
        let key = given.key_of(call);
        if key != NONE {
            let place = at(self.places.as_slice(), key);
            if let Some(list) = self.lists.get_mut(place as usize) {
                list.add(call, made)?;
            }
        } else if let Some(one) = given.observed.get(call as usize)
            && matches!(one.call, Call::Flush)
        {
            for list in &mut self.lists {
                if let Some(own) = pass.keys.get(list.key as usize)
                    && own.shard == one.shard
                {
                    list.add(call, made)?;
                }
            }
        }
        Ok(())
    }
}

impl KeyList {
    // Adds a call.
    fn add(&mut self, call: u32, made: Option<usize>) -> Result<(), NoMemory> {
        match made {
            Some(place) => {
                self.made.push(call)?;
                self.places.push(place)?;
            }
            None => self.sent.push(call)?,
        }
        Ok(())
    }
}
