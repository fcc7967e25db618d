//! Which call made what another one found.

use crate::effects::{
    Trace, expected, found_another, found_by, is_counting, joined_to, left_by, may_leave,
    needed_by, needs_absence,
};
use crate::hashing::{unique_hash, unknown_hash, value_hash};
use crate::looked::{Found, Looked, Reader};
use crate::numbers::{NONE, at, put, small, time_at};
use crate::sessions::end_of;
use crate::table::Table;
use std::alloc::Global;
use zy_base::NoMemory;
use zy_refute::Observed;

// No call: several made items with a unique.
const SEVERAL: u32 = NONE - 1;

// How many calls that made the same are looked at for each that found it.
const MOST: usize = 64;

// The calls that made each thing.
#[derive(Drop)]
struct Made {
    /// The last call that made what has a hash.
    last: Table,
    /// The call that made the item with a unique.
    uniques: Table,
    /// For each call the one before it that made the same.
    before: Vec<u32>,
    /// For each call the last end of it and of those before it.
    until: Vec<u64>,
    /// The number of calls that are added, of those by their sendings.
    sent: usize,
}

// For each call the call that made what it found, if only one can have; for one that found an item with
// another unique, the call that made the item that it named.
pub(crate) fn sources_of(alloc: Global, looked: Looked<'_>) -> Result<Vec<u32>, NoMemory> {
    let mut sources = Vec::from_elem(alloc, NONE, looked.observed.len())?;
    match find_sources(alloc, looked, sources.as_mut_slice()) {
        Ok(()) => Ok(sources),
        Err(refused) => {
            drop(sources);
            Err(refused)
        }
    }
}

// Finds the sources.
fn find_sources(alloc: Global, looked: Looked<'_>, sources: &mut [u32]) -> Result<(), NoMemory> {
    let count = looked.observed.len();
    let mut made = Made {
        last: Table::new(alloc)?,
        uniques: Table::new(alloc)?,
        before: Vec::from_elem(alloc, NONE, count)?,
        until: Vec::from_elem(alloc, 0u64, count)?,
        sent: 0,
    };
    let found = made.find_all(looked, sources);
    if found.is_ok() {
        by_unique(looked, sources, &made.uniques);
    }
    drop(made);
    found
}

// Notes the call that made the item with a unique; two calls show that the unique does not tell.
fn name_source(uniques: &mut Table, hash: u64, source: u32) -> Result<(), NoMemory> {
    let known = uniques.get(hash);
    uniques.put(
        hash,
        if known == NONE || known == source {
            source
        } else {
            SEVERAL
        },
    )
}

// Finds sources by uniques.
fn by_unique(looked: Looked<'_>, sources: &mut [u32], uniques: &Table) {
    for call in 0..looked.observed.len() {
        let one = &looked.observed[call];
        if let Some(unique) = expected(one) {
            let maker = uniques.get(unique_hash(looked.key_of(small(call)), unique));
            let early = match looked.observed.get(maker as usize) {
                Some(other) => other.sent < end_of(one),
                None => false,
            };
            if maker == SEVERAL {
                continue;
            }
            if found_another(one) || (early && maker != small(call)) {
                put(sources, small(call), maker);
            }
        }
    }
}

impl Made {
    // Finds the source of each sure call.
    fn find_all(&mut self, looked: Looked<'_>, sources: &mut [u32]) -> Result<(), NoMemory> {
        for call in looked.by_end {
            if let Some(one) = looked.observed.get(*call as usize) {
                self.add_sent(looked, end_of(one))?;
                self.find(looked, sources, *call, one)?;
            }
        }
        Ok(())
    }

    // Adds the calls that were sent before a moment.
    fn add_sent(&mut self, looked: Looked<'_>, end: u64) -> Result<(), NoMemory> {
        for _ in self.sent..looked.by_sent.len() {
            let maker = at(looked.by_sent, small(self.sent));
            match looked.observed.get(maker as usize) {
                Some(other) if other.sent < end => self.add(looked, maker, other)?,
                _ => break,
            }
            self.sent = self.sent.saturating_add(1);
        }
        Ok(())
    }

    // Finds the source of a call.
    fn find(
        &mut self,
        looked: Looked<'_>,
        sources: &mut [u32],
        call: u32,
        one: &Observed,
    ) -> Result<(), NoMemory> {
        let source = self.source(looked, call, one);
        if source == NONE {
            return Ok(());
        }
        put(sources, call, source);
        self.join_sources(looked, sources, call, one);
        match one.unique {
            Some(unique) => {
                let hash = unique_hash(looked.key_of(call), unique);
                name_source(&mut self.uniques, hash, source)
            }
            None => Ok(()),
        }
    }

    // Adds a call that was sent after those before.
    fn add(&mut self, looked: Looked<'_>, call: u32, one: &Observed) -> Result<(), NoMemory> {
        let key = looked.key_of(call);
        let hash = match left_by(one, key) {
            Trace::Hash(hash) => hash,
            Trace::Unknown => unknown_hash(key),
            Trace::Nothing => return Ok(()),
        };
        let before = self.last.get(hash);
        put(self.before.as_mut_slice(), call, before);
        let mut until = end_of(one);
        if before != NONE {
            until = until.max(time_at(self.until.as_slice(), before));
        }
        if let Some(own) = self.until.get_mut(call as usize) {
            *own = until;
        }
        self.last.put(hash, call)
    }

    // The call that made what a call found, if only one can have.
    fn source(&self, looked: Looked<'_>, call: u32, one: &Observed) -> u32 {
        let Trace::Hash(hash) = needed_by(one, looked.key_of(call)) else {
            return NONE;
        };
        let found = match found_by(one) {
            Some(value) => Found::Value(value.bytes()),
            None if needs_absence(one) => Found::Absence,
            None => Found::Number,
        };
        self.maker_of(looked, call, one, hash, found)
    }

    // The calls that made what those found that joined pieces to the value that a call found.
    fn join_sources(&self, looked: Looked<'_>, sources: &mut [u32], call: u32, one: &Observed) {
        let Some(found) = found_by(one) else {
            return;
        };
        let mut value = found.bytes();
        let mut maker = at(sources, call);
        for _ in 0..MOST {
            let Some(other) = looked.observed.get(maker as usize) else {
                break;
            };
            let Some(rest) = joined_to(other, value) else {
                break;
            };
            if at(sources, maker) != NONE {
                break;
            }
            let hash = value_hash(looked.key_of(maker), rest);
            let source = self.maker_of(looked, maker, other, hash, Found::Value(rest));
            put(sources, maker, source);
            maker = source;
            value = rest;
        }
    }

    // The call that made what a call found, if only one can have.
    fn maker_of(
        &self,
        looked: Looked<'_>,
        call: u32,
        one: &Observed,
        hash: u64,
        found: Found<'_>,
    ) -> u32 {
        let key = looked.key_of(call);
        let floor = time_at(looked.floors, call);
        let absent = matches!(found, Found::Absence);
        if (absent && (looked.may_go(key) || floor == 0)) || (looked.warm && floor == 0) {
            return NONE;
        }
        let reader = Reader {
            call,
            floor,
            end: end_of(one),
        };
        let (known, some) = self.one_of(looked, self.last.get(hash), reader, None);
        let last = self.last.get(unknown_hash(key));
        let (unknown, others) = self.one_of(looked, last, reader, Some(found));
        match some.saturating_add(others) {
            1 if some == 1 => known,
            1 => unknown,
            _ => NONE,
        }
    }

    // One of those that may have made what a call found, and how many there are, up to two.
    fn one_of(
        &self,
        looked: Looked<'_>,
        last: u32,
        reader: Reader,
        found: Option<Found<'_>>,
    ) -> (u32, u32) {
        let mut only = NONE;
        let mut count: u32 = 0;
        let mut maker = last;
        for turn in 0..MOST {
            let Some(other) = looked.observed.get(maker as usize) else {
                break;
            };
            if time_at(self.until.as_slice(), maker) <= reader.floor {
                break;
            }
            if turn + 1 == MOST {
                count = 2;
            }
            let fits = match found {
                None => true,
                Some(Found::Value(value)) => may_leave(other, value),
                Some(Found::Number) => is_counting(other),
                Some(Found::Absence) => false,
            };
            if fits && reader.may_find(maker, other) {
                only = maker;
                count = count.saturating_add(1);
            }
            if 1 < count {
                break;
            }
            maker = at(self.before.as_slice(), maker);
        }
        (only, count)
    }
}
