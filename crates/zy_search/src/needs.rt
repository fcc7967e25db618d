//! Which calls at a key need what another one made.

use std::alloc::Global;
use zy_base::NoMemory;
use zy_sources::{Calls, NONE, Table, at, expected, found_another, mixed, small, unique_hash};

// What a call of a list needs, and who needs it.
#[derive(Clone, Copy)]
struct Need {
    /// The offset of its source, or `NONE`.
    source: u32,
    /// The offset of the call whose item it did not find, or `NONE`.
    other: u32,
    /// The number of calls that need it and are not made.
    open: u32,
    /// The number of the unique that it found, or `NONE`.
    unique: u32,
    /// The offset of the call before it in its session, or `NONE`.
    prior: u32,
}

const NO_NEED: Need = Need {
    source: NONE,
    other: NONE,
    open: 0,
    unique: NONE,
    prior: NONE,
};

/// Which calls of a list need what another one of it made.
#[derive(Drop)]
pub(crate) struct Needs {
    /// What each call needs, and last what the one needs that made what was there before.
    of: Vec<Need>,
    /// The numbers of the uniques.
    uniques: Table,
    /// For each unique the number of calls that found it and are not made.
    finders: Vec<u32>,
}

// A hash of a call.
fn call_hash(call: u32) -> u64 {
    mixed(6, call as u64)
}

// A hash of the session of a call.
fn session_hash(calls: Calls<'_>, call: u32) -> u64 {
    match calls.observed.get(call as usize) {
        Some(one) => mixed(mixed(10, one.name.conn as u64), one.name.session),
        None => 0,
    }
}

// The offsets of the calls of a list; the call that made what was there before has the offset after them.
fn offsets_of(alloc: Global, list: &[u32], maker: u32) -> Result<Table, NoMemory> {
    let mut offsets = Table::new(alloc)?;
    match put_offsets(&mut offsets, list, maker) {
        Ok(()) => Ok(offsets),
        Err(refused) => {
            drop(offsets);
            Err(refused)
        }
    }
}

fn put_offsets(offsets: &mut Table, list: &[u32], maker: u32) -> Result<(), NoMemory> {
    for offset in 0..list.len() {
        offsets.put(call_hash(list[offset]), small(offset))?;
    }
    if maker != NONE {
        offsets.put(call_hash(maker), small(list.len()))?;
    }
    Ok(())
}

impl Needs {
    /// Finds the needs of a list of calls, and of the one that made what was there before. If the sources
    /// are not `kept`, only the uniques count.
    pub(crate) fn new(
        alloc: Global,
        calls: Calls<'_>,
        list: &[u32],
        maker: u32,
        kept: bool,
    ) -> Result<Needs, NoMemory> {
        let uniques = Table::new(alloc)?;
        match Vec::from_elem(alloc, NO_NEED, list.len().saturating_add(1)) {
            Ok(of) => {
                let needs = Needs {
                    of,
                    uniques,
                    finders: Vec::new(alloc),
                };
                needs.filled(alloc, calls, list, maker, kept)
            }
            Err(_) => {
                drop(uniques);
                Err(NoMemory)
            }
        }
    }

    // Adds what each call needs.
    fn filled(
        self,
        alloc: Global,
        calls: Calls<'_>,
        list: &[u32],
        maker: u32,
        kept: bool,
    ) -> Result<Needs, NoMemory> {
        let mut needs = self;
        match needs.fill(alloc, calls, list, maker, kept) {
            Ok(()) => Ok(needs),
            Err(refused) => {
                drop(needs);
                Err(refused)
            }
        }
    }

    fn fill(
        &mut self,
        alloc: Global,
        calls: Calls<'_>,
        list: &[u32],
        maker: u32,
        kept: bool,
    ) -> Result<(), NoMemory> {
        self.follow(alloc, calls, list)?;
        for offset in 0..list.len() {
            self.count(calls, list[offset], small(offset))?;
        }
        let offsets = offsets_of(alloc, list, maker)?;
        for offset in 0..list.len() {
            self.link(calls, &offsets, list[offset], small(offset), kept);
        }
        drop(offsets);
        Ok(())
    }

    // Notes for each call the one before it in its session.
    fn follow(&mut self, alloc: Global, calls: Calls<'_>, list: &[u32]) -> Result<(), NoMemory> {
        let mut last = Table::new(alloc)?;
        let followed = self.follow_by(&mut last, calls, list);
        drop(last);
        followed
    }

    // The same, with a table of the last call of each session.
    fn follow_by(
        &mut self,
        last: &mut Table,
        calls: Calls<'_>,
        list: &[u32],
    ) -> Result<(), NoMemory> {
        for offset in 0..list.len() {
            let hash = session_hash(calls, list[offset]);
            let prior = last.get(hash);
            if let Some(own) = self.of.get_mut(offset) {
                own.prior = prior;
            }
            last.put(hash, small(offset))?;
        }
        Ok(())
    }

    // What a call needs.
    fn need(&self, offset: u32) -> Need {
        match self.of.get(offset as usize) {
            Some(need) => *need,
            None => NO_NEED,
        }
    }

    // Notes the unique that a call found.
    fn count(&mut self, calls: Calls<'_>, call: u32, offset: u32) -> Result<(), NoMemory> {
        let Some(unique) = unique_found(calls, call) else {
            return Ok(());
        };
        let hash = unique_hash(0, unique);
        let mut number = self.uniques.get(hash);
        if number == NONE {
            number = small(self.finders.len());
            self.uniques.put(hash, number)?;
            self.finders.push(0)?;
        }
        if let Some(own) = self.of.get_mut(offset as usize) {
            own.unique = number;
        }
        if let Some(finders) = self.finders.get_mut(number as usize) {
            *finders = finders.saturating_add(1);
        }
        Ok(())
    }

    // Notes the source of a call.
    fn link(&mut self, calls: Calls<'_>, offsets: &Table, call: u32, offset: u32, kept: bool) {
        let source = at(calls.links.makers.source.as_slice(), call);
        let Some(one) = calls.observed.get(call as usize) else {
            return;
        };
        if source == NONE {
            return;
        }
        let own = offsets.get(call_hash(source));
        let Some(need) = self.of.get_mut(offset as usize) else {
            return;
        };
        if found_another(one) {
            need.other = own;
        } else if kept {
            need.source = own;
            self.need_more(own);
        }
    }

    /// Returns how many uniques there are.
    pub(crate) fn count_of_uniques(&self) -> usize {
        self.finders.len()
    }

    /// Returns the number of a unique, or `NONE`.
    pub(crate) fn number_of(&self, unique: u64) -> u32 {
        self.uniques.get(unique_hash(0, unique))
    }

    /// Returns the call before a call in its session, or `NONE`.
    pub(crate) fn prior_of(&self, offset: u32) -> u32 {
        self.need(offset).prior
    }

    /// Checks whether an item with a unique may go, by a call: no others find it.
    pub(crate) fn may_leave(&self, unique: u64, by: u32) -> bool {
        let number = self.number_of(unique);
        let own = number != NONE && self.need(by).unique == number;
        match self.finders.get(number as usize) {
            Some(finders) => *finders == 0 || (own && *finders == 1),
            None => true,
        }
    }

    /// Checks whether the item that a call made may go, by another call: no others need it.
    pub(crate) fn may_go(&self, maker: u32, by: u32) -> bool {
        let own = self.need(by).source == maker;
        let open = self.need(maker).open;
        open == 0 || (own && open == 1)
    }

    /// Checks whether a call is one that found another item than that of the maker.
    pub(crate) fn is_other(&self, maker: u32, call: u32) -> bool {
        maker != NONE && self.need(call).other == maker
    }

    /// Counts a call as made: its source is needed once less.
    pub(crate) fn meet(&mut self, offset: u32) {
        let Need { source, unique, .. } = self.need(offset);
        if let Some(own) = self.of.get_mut(source as usize) {
            own.open = own.open.saturating_sub(1);
        }
        if let Some(finders) = self.finders.get_mut(unique as usize) {
            *finders = finders.saturating_sub(1);
        }
    }

    /// Counts a call as not made: its source is needed once more.
    pub(crate) fn miss(&mut self, offset: u32) {
        let Need { source, unique, .. } = self.need(offset);
        self.need_more(source);
        if let Some(finders) = self.finders.get_mut(unique as usize) {
            *finders = finders.saturating_add(1);
        }
    }

    // A call is needed once more.
    fn need_more(&mut self, source: u32) {
        if let Some(own) = self.of.get_mut(source as usize) {
            own.open = own.open.saturating_add(1);
        }
    }
}

// The unique that a call found.
fn unique_found(calls: Calls<'_>, call: u32) -> Option<u64> {
    match calls.observed.get(call as usize) {
        Some(one) if !found_another(one) => expected(one),
        _ => None,
    }
}
