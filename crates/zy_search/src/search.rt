//! A search through the calls at a key: which are made, and what the key has.

use crate::after::held_after;
use crate::decided::Decided;
use crate::held::{Held, Sight};
use crate::needs::Needs;
use crate::searching::Listed;
use std::alloc::Global;
use zy_base::NoMemory;
use zy_sources::{Chain, NONE, at, expected, found_another, small};

// What is noted of a unique: the number of calls that were made before an item was shown to have it, and
// before one was shown not to have it, or `NONE`.
#[derive(Clone, Copy)]
struct Mark {
    shown: u32,
    denied: u32,
}

const NO_MARK: Mark = Mark {
    shown: NONE,
    denied: NONE,
};

// A unique that a made call showed, and what was noted of it before.
#[derive(Clone, Copy)]
struct Noted {
    number: u32,
    before: Mark,
    made: u32,
}

// The offset of the call that made what the key has, and the number of calls that were made before it.
#[derive(Clone, Copy)]
struct Maker {
    offset: u32,
    since: u32,
}

/// What the made calls left.
#[derive(Drop)]
struct Trail {
    /// What the key had before each of the made ones that changed it, and the call that made it.
    before: Vec<Option<Held>>,
    makers: Vec<Maker>,
    /// What is noted of each unique, and what was noted before.
    marks: Vec<Mark>,
    noted: Vec<Noted>,
    /// The number of calls that were made before each loss.
    losses: Vec<u32>,
}

/// A search through the calls at a key.
#[derive(Drop)]
pub(crate) struct Search {
    pub(crate) held: Held,
    /// The offset of the call that made what the key has; the length of the list is that of an earlier call.
    pub(crate) maker: u32,
    /// The number of calls that were made before that one.
    since: u32,
    /// The offsets of the made ones, in their order.
    pub(crate) order: Vec<u32>,
    trail: Trail,
    pub(crate) chain: Chain,
    pub(crate) needs: Needs,
    pub(crate) kept: bool,
    /// The number of calls that are left and must be made.
    pub(crate) left: usize,
}

impl Search {
    /// Begins before any call. May answer `NoMemory`.
    pub(crate) fn begin(alloc: Global, listed: Listed<'_>, kept: bool) -> Result<Search, NoMemory> {
        let needs = Needs::new(alloc, listed.calls, listed.list, listed.maker, kept)?;
        let marks = match Vec::from_elem(alloc, NO_MARK, needs.count_of_uniques()) {
            Ok(marks) => marks,
            Err(_) => {
                drop(needs);
                return Err(NoMemory);
            }
        };
        let trail = Trail {
            before: Vec::new(alloc),
            makers: Vec::new(alloc),
            marks,
            noted: Vec::new(alloc),
            losses: Vec::new(alloc),
        };
        Search::from_parts(alloc, listed, kept, needs, trail)
    }

    // Begins with these needs and no trail.
    fn from_parts(
        alloc: Global,
        listed: Listed<'_>,
        kept: bool,
        needs: Needs,
        trail: Trail,
    ) -> Result<Search, NoMemory> {
        match (listed.held.copy(), Chain::new(alloc, listed.list.len())) {
            (Ok(held), Ok(chain)) => Ok(Search {
                held,
                maker: small(listed.list.len()),
                since: 0,
                order: Vec::new(alloc),
                trail,
                chain,
                needs,
                kept,
                left: listed.count_of_wanted(),
            }),
            (held, chain) => {
                drop(held);
                drop(chain);
                drop(needs);
                drop(trail);
                Err(NoMemory)
            }
        }
    }

    /// Checks whether an earlier call of the same session is not made.
    pub(crate) fn is_blocked(&self, offset: u32) -> bool {
        self.chain.is_open(self.needs.prior_of(offset))
    }

    /// Checks whether another item was shown to have a unique since the last loss, or this item not to have it.
    pub(crate) fn is_taken(&self, unique: u64) -> bool {
        let since = match self.trail.losses.last() {
            Some(made) => *made,
            None => 0,
        };
        let mark = self.trail.mark(self.needs.number_of(unique));
        (mark.shown != NONE && since <= mark.shown)
            || (mark.denied != NONE && self.since <= mark.denied)
    }

    /// Makes a call. May answer `NoMemory`.
    pub(crate) fn make(
        &mut self,
        alloc: Global,
        listed: Listed<'_>,
        offset: u32,
        decided: Decided,
    ) -> Result<(), NoMemory> {
        self.trail.makers.push(Maker {
            offset: self.maker,
            since: self.since,
        })?;
        self.note(listed, offset, decided)?;
        if !decided.keeps(self.held.sight()) {
            self.maker = offset;
            self.since = small(self.order.len());
        }
        self.change(alloc, listed, offset, decided)?;
        self.order.push(offset)?;
        self.needs.meet(offset);
        self.chain.take(offset);
        if listed.is_wanted(at(listed.list, offset)) {
            self.left = self.left.saturating_sub(1);
        }
        Ok(())
    }

    // Gives the key what it has after a call.
    fn change(
        &mut self,
        alloc: Global,
        listed: Listed<'_>,
        offset: u32,
        decided: Decided,
    ) -> Result<(), NoMemory> {
        let after = match listed.calls.get(at(listed.list, offset)) {
            Some(one) => { held_after(alloc, self.held.sight(), one, decided, self.order.len())? }
            None => None,
        };
        let before = match after {
            Some(held) => Some(std::mem::replace(&mut self.held, held)),
            None => None,
        };
        self.trail.before.push(before)?;
        Ok(())
    }

    // Notes what a call shows.
    fn note(&mut self, listed: Listed<'_>, offset: u32, decided: Decided) -> Result<(), NoMemory> {
        let made = small(self.order.len());
        if decided.lost {
            self.trail.losses.push(made)?;
        }
        let denied = self.denied(listed, offset);
        let unique = match decided.shown {
            Some(shown) => Some(shown.unique),
            None => denied,
        };
        let Some(unique) = unique else {
            return Ok(());
        };
        let number = self.needs.number_of(unique);
        let before = self.trail.mark(number);
        self.trail.noted.push(Noted {
            number,
            before,
            made,
        })?;
        if let Some(own) = self.trail.marks.get_mut(number as usize) {
            if denied.is_some() {
                own.denied = made;
            } else {
                own.shown = made;
            }
        }
        Ok(())
    }

    /// Returns the unique that a call says that the item does not have, if the item's is not known, and a call
    /// that found it is not made.
    pub(crate) fn denied(&self, listed: Listed<'_>, offset: u32) -> Option<u64> {
        match (listed.calls.get(at(listed.list, offset)), self.held.sight()) {
            (Some(one), Sight::Item(known)) if known.unique.is_none() && found_another(one) => {
                match expected(one) {
                    Some(unique) if !self.needs.may_leave(unique, offset) => Some(unique),
                    _ => None,
                }
            }
            _ => None,
        }
    }

    /// Takes calls back, until this number is left.
    pub(crate) fn go_back(&mut self, listed: Listed<'_>, length: usize) {
        for _ in length..self.order.len() {
            if let Some(offset) = self.order.pop() {
                self.take_back(offset);
                if listed.is_wanted(at(listed.list, offset)) {
                    self.left = self.left.saturating_add(1);
                }
            }
        }
    }

    // The key has what it had before the last call.
    fn take_back(&mut self, offset: u32) {
        match self.trail.before.pop() {
            Some(Some(before)) => drop(std::mem::replace(&mut self.held, before)),
            other => drop(other),
        }
        if let Some(maker) = self.trail.makers.pop() {
            self.maker = maker.offset;
            self.since = maker.since;
        }
        self.trail.forget(small(self.order.len()));
        self.needs.miss(offset);
        self.chain.put_back(offset);
    }
}

impl Trail {
    // What is noted of a unique.
    fn mark(&self, number: u32) -> Mark {
        match self.marks.get(number as usize) {
            Some(mark) => *mark,
            None => NO_MARK,
        }
    }

    // Nothing is noted of the call that was made after this number of others.
    fn forget(&mut self, made: u32) {
        if let Some(noted) = self.noted.last().copied()
            && noted.made == made
        {
            if let Some(own) = self.marks.get_mut(noted.number as usize) {
                *own = noted.before;
            }
            let _ = self.noted.pop();
        }
        if let Some(last) = self.losses.last().copied()
            && last == made
        {
            let _ = self.losses.pop();
        }
    }
}
