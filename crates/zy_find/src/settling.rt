//! Settling the order of the calls of a key around each failure of a pass.

use crate::around::{Around, Open};
use crate::key_lists::{KeyLists, lists_of};
use crate::pass::{Failure, Given, Pass};
use std::alloc::Global;
use zy_base::NoMemory;
use zy_sources::{NONE, at, put, small, time_at};

// If no order was found at this number of keys, no further key is tried.
const MOST_AMISS: usize = 64;

// How many levels there are; each tries four times as many calls as the one before.
const LEVELS: u32 = 10;

/// A piece of the order of the calls at a key, and the change before it.
#[derive(Drop)]
pub(crate) struct Piece {
    pub(crate) key: u32,
    pub(crate) last: u32,
    pub(crate) calls: Vec<u32>,
    /// It begins with anything at the key, whatever was guessed.
    pub(crate) unguessed: bool,
}

/// Pieces of orders, and a call at each of the keys without an order.
#[derive(Drop)]
pub(crate) struct Settled {
    pub(crate) pieces: Vec<Piece>,
    pub(crate) amiss: Vec<usize>,
    /// The calls that failed.
    pub(crate) tried: Vec<usize>,
    /// The number of calls that may still be looked at.
    pub(crate) left: usize,
}

/// Looks for an order of the calls around each failure of a pass. For a failure it looks at no more than
/// `most` calls for each call around it, and at `left` in all. May answer `NoMemory`.
pub(crate) fn settle(
    alloc: Global,
    given: Given<'_>,
    pass: &Pass,
    most: usize,
    left: usize,
) -> Result<Settled, NoMemory> {
    let ranks = ranks_of(alloc, given, pass)?;
    match lists_of(alloc, given, pass) {
        Ok(lists) => {
            let settled = settle_with(alloc, given, pass, &lists, &ranks, most, left);
            drop(lists);
            drop(ranks);
            settled
        }
        Err(refused) => {
            drop(ranks);
            Err(refused)
        }
    }
}

// Does the same with the calls of the keys and the ranks of all calls.
fn settle_with(
    alloc: Global,
    given: Given<'_>,
    pass: &Pass,
    lists: &KeyLists,
    ranks: &[u32],
    most: usize,
    left: usize,
) -> Result<Settled, NoMemory> {
    let mut settled = Settled {
        pieces: Vec::new(alloc),
        amiss: Vec::new(alloc),
        tried: Vec::new(alloc),
        left,
    };
    match settled.add_all(alloc, given, pass, lists, ranks, most) {
        Ok(()) => Ok(settled),
        Err(refused) => {
            drop(settled);
            Err(refused)
        }
    }
}

impl Settled {
    // Checks whether another pass would find nothing new.
    pub(crate) fn ends(&self) -> bool {
        self.pieces.is_empty() || !self.amiss.is_empty()
    }

    // Returns the calls that stand in the way.
    pub(crate) fn into_calls(self) -> Vec<usize> {
        let ends = self.ends();
        let Settled {
            pieces,
            amiss,
            tried,
            ..
        } = self;
        drop(pieces);
        if ends {
            drop(tried);
            amiss
        } else {
            drop(amiss);
            tried
        }
    }

    // Looks for an order of the calls around each failure.
    fn add_all(
        &mut self,
        alloc: Global,
        given: Given<'_>,
        pass: &Pass,
        lists: &KeyLists,
        ranks: &[u32],
        most: usize,
    ) -> Result<(), NoMemory> {
        let mut until = Vec::from_elem(alloc, 0u64, lists.lists.len())?;
        let mut added = Ok(());
        for failure in &pass.failures {
            let Some(open) = open_at(pass, lists, ranks, *failure) else {
                continue;
            };
            let place = at(lists.places.as_slice(), failure.key);
            let settled = time_at(until.as_slice(), place);
            if added.is_err() || sent_at(given, failure.call) < settled {
                continue;
            }
            match self.add(alloc, given, open, most) {
                Ok(moment) => {
                    if let Some(own) = until.get_mut(place as usize) {
                        *own = moment;
                    }
                }
                Err(refused) => added = Err(refused),
            }
        }
        drop(until);
        added
    }

    // Looks for an order of the calls around a failure; returns the moment up to which it is settled.
    fn add(
        &mut self,
        alloc: Global,
        given: Given<'_>,
        open: Open<'_>,
        most: usize,
    ) -> Result<u64, NoMemory> {
        if MOST_AMISS <= self.amiss.len() {
            return Ok(u64::MAX);
        }
        self.tried.push(open.failure.call as usize)?;
        let first = given.learned.failures(open.failure.call).min(LEVELS);
        for level in first..LEVELS {
            if self.left == 0 {
                break;
            }
            let around = Around::of(given, open, level);
            self.left = self.left.saturating_sub(open.list.sent.len());
            if let Some(piece) = around.piece(alloc, given, open, most, &mut self.left)? {
                self.pieces.push(piece)?;
                return Ok(around.until);
            }
            if around.is_all() {
                break;
            }
        }
        self.amiss.push(open.failure.call as usize)?;
        Ok(u64::MAX)
    }
}

// Returns a failure, with the calls at its key.
fn open_at<'a>(
    pass: &Pass,
    lists: &'a KeyLists,
    ranks: &'a [u32],
    failure: Failure,
) -> Option<Open<'a>> {
    let place = at(lists.places.as_slice(), failure.key);
    match (
        lists.lists.get(place as usize),
        pass.keys.get(failure.key as usize),
    ) {
        (Some(list), Some(own)) => Some(Open {
            failure,
            list,
            forget: own.forget,
            ranks,
        }),
        _ => None,
    }
}

// Returns the moment at which a call was sent.
fn sent_at(given: Given<'_>, call: u32) -> u64 {
    match given.get(call) {
        Some(one) => one.sent,
        None => 0,
    }
}

// Returns for each call its offset in the order of a pass.
fn ranks_of(alloc: Global, given: Given<'_>, pass: &Pass) -> Result<Vec<u32>, NoMemory> {
    let mut ranks = Vec::from_elem(alloc, NONE, given.observed.len())?;
    for place in 0..pass.made.len() {
        put(ranks.as_mut_slice(), pass.made[place], small(place));
    }
    Ok(ranks)
}
