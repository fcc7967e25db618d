//! One order of all calls, made call by call.

use crate::at_key::{AtKey, keys_at_first};
use crate::learned::Learned;
use crate::order::Rules;
use std::alloc::Global;
use zy_base::NoMemory;
use zy_refute::Observed;
use zy_sources::{Calls, Links, NONE, Table, at};
use zy_verdict::Placement;

/// What is given: the calls, what is known of them, and what was learned from earlier passes.
#[derive(Clone, Copy)]
pub(crate) struct Given<'a> {
    pub(crate) observed: &'a [Observed],
    pub(crate) links: &'a Links,
    pub(crate) learned: &'a Learned,
    pub(crate) rules: Rules<'a>,
}

/// A call whose answer was impossible, and how many calls were made before it.
#[derive(Clone, Copy)]
pub(crate) struct Failure {
    pub(crate) key: u32,
    pub(crate) call: u32,
    pub(crate) made: usize,
}

/// How far a call is.
#[derive(Clone, Copy, PartialEq, Eq)]
pub(crate) enum Progress {
    /// It waits.
    Waits,
    /// It is to be made as soon as what must come before it is made.
    Wanted,
    /// It is made.
    Made,
}

/// A call: how far it is, and of those that wait at its key the next and the one before, by their sendings.
#[derive(Clone, Copy)]
pub(crate) struct Standing {
    progress: Progress,
    next: u32,
    back: u32,
}

const WAITS: Standing = Standing {
    progress: Progress::Waits,
    next: NONE,
    back: NONE,
};

/// An order of calls that grows.
#[derive(Drop)]
pub(crate) struct Pass {
    pub(crate) alloc: Global,
    pub(crate) keys: Vec<AtKey>,
    pub(crate) calls: Vec<Standing>,
    /// The calls that are made, and these by their offsets.
    pub(crate) order: Vec<Placement>,
    pub(crate) made: Vec<u32>,
    /// The number of the first flushes that are made.
    pub(crate) flushed: usize,
    /// The calls that are wanted; each waits for the one after it.
    pub(crate) wanted: Vec<u32>,
    /// The end of the first wanted call: what is made now must be sent before it.
    pub(crate) now: u64,
    /// The last unique that was given to an item whose unique no answer showed.
    pub(crate) unique: u64,
    /// The offsets of the calls whose items' uniques answers showed, by these.
    pub(crate) shown: Table,
    /// The first calls whose answers were impossible, or that could not be made in their turn.
    pub(crate) failures: Vec<Failure>,
}

// Uniques that no answer showed are counted from here, far above those of a server.
pub(crate) const FIRST_UNIQUE: u64 = 1 << 63;

impl<'a> Given<'a> {
    // Returns the calls, with what is known of them.
    pub(crate) fn calls(self) -> Calls<'a> {
        Calls {
            observed: self.observed,
            links: self.links,
        }
    }

    // Returns a call.
    pub(crate) fn get(self, call: u32) -> Option<&'a Observed> {
        self.observed.get(call as usize)
    }

    // Returns the number of a call's key, or `NONE`.
    pub(crate) fn key_of(self, call: u32) -> u32 {
        at(self.links.keys.of.as_slice(), call)
    }

    // Returns the call before a call in its session, or `NONE`.
    pub(crate) fn before(self, call: u32) -> u32 {
        self.calls().before(call)
    }

    // Returns the call that made what a call found, or `NONE`.
    pub(crate) fn source_of(self, call: u32) -> u32 {
        self.calls().source_of(call)
    }
}

impl Pass {
    // Begins before any call.
    pub(crate) fn new(alloc: Global, given: Given<'_>) -> Result<Pass, NoMemory> {
        let keys = keys_at_first(alloc, given)?;
        match Table::new(alloc) {
            Ok(shown) => Pass::with_calls(alloc, given, keys, shown),
            Err(refused) => {
                drop(keys);
                Err(refused)
            }
        }
    }

    // Begins with all calls, which wait.
    fn with_calls(
        alloc: Global,
        given: Given<'_>,
        keys: Vec<AtKey>,
        shown: Table,
    ) -> Result<Pass, NoMemory> {
        match Vec::from_elem(alloc, WAITS, given.observed.len()) {
            Ok(calls) => {
                let mut pass = Pass {
                    alloc,
                    keys,
                    calls,
                    order: Vec::new(alloc),
                    made: Vec::new(alloc),
                    flushed: 0,
                    wanted: Vec::new(alloc),
                    now: 0,
                    unique: FIRST_UNIQUE,
                    shown,
                    failures: Vec::new(alloc),
                };
                for call in &given.links.sorted.by_sent {
                    pass.append(given, *call);
                }
                Ok(pass)
            }
            Err(_) => {
                drop(keys);
                drop(shown);
                Err(NoMemory)
            }
        }
    }

    // Adds a call after those that wait at its key.
    fn append(&mut self, given: Given<'_>, call: u32) {
        let key = given.key_of(call);
        if let Some(own) = self.keys.get_mut(key as usize) {
            let tail = own.tail;
            own.tail = call;
            if tail == NONE {
                own.head = call;
            }
            self.join(tail, call);
        }
    }

    // Takes a call out of those that wait at its key.
    pub(crate) fn unlink(&mut self, key: u32, call: u32) {
        let (before, after) = match self.calls.get(call as usize) {
            Some(standing) => (standing.back, standing.next),
            None => return,
        };
        if let Some(own) = self.keys.get_mut(key as usize) {
            if own.head == call {
                own.head = after;
            }
            if own.tail == call {
                own.tail = before;
            }
        }
        self.join(before, after);
    }

    // Notes that one call that waits at a key comes right after another one.
    fn join(&mut self, before: u32, after: u32) {
        if let Some(own) = self.calls.get_mut(before as usize) {
            own.next = after;
        }
        if let Some(own) = self.calls.get_mut(after as usize) {
            own.back = before;
        }
    }

    // Returns the call that waits at a key after another one, or `NONE`.
    pub(crate) fn after(&self, call: u32) -> u32 {
        match self.calls.get(call as usize) {
            Some(standing) => standing.next,
            None => NONE,
        }
    }

    // Passes over the flushes that are made.
    pub(crate) fn pass_flushes(&mut self, given: Given<'_>) {
        for _ in self.flushed..given.links.sorted.flushes.len() {
            let flush = match given.links.sorted.flushes.get(self.flushed) {
                Some(flush) => *flush,
                None => NONE,
            };
            if !self.is_made(flush) {
                break;
            }
            self.flushed = self.flushed.saturating_add(1);
        }
    }

    // Checks whether a call waits, and is not wanted yet.
    pub(crate) fn waits(&self, call: u32) -> bool {
        match self.calls.get(call as usize) {
            Some(standing) => standing.progress == Progress::Waits,
            None => false,
        }
    }

    // Checks whether a call is made; what is no call counts as made.
    pub(crate) fn is_made(&self, call: u32) -> bool {
        match self.calls.get(call as usize) {
            Some(standing) => standing.progress == Progress::Made,
            None => true,
        }
    }

    // Notes how far a call is.
    pub(crate) fn set(&mut self, call: u32, progress: Progress) {
        if let Some(own) = self.calls.get_mut(call as usize) {
            own.progress = progress;
        }
    }

    // Checks whether a call was sent early enough to be made now.
    pub(crate) fn is_sent(&self, given: Given<'_>, call: u32) -> bool {
        given.calls().since(call) < self.now
    }
}
