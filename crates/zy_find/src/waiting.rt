//! Calls that wait at a key, and are made before another one.

use crate::helping::MOST_WAITING;
use crate::pass::{Given, Pass};
use mc_allows::Shown;
use zy_base::NoMemory;
use zy_refute::Observed;
use zy_search::{Sight, decide_after, held_after};
use zy_sources::{NONE, are_of_one_session, changes, time_at};

// How many calls of a session are made early for a later one.
const MOST_BEFORE: usize = 16;

impl Pass {
    // Finds a call that waits at a key and must be made before the key gets something else.
    pub(crate) fn reader(
        &self,
        given: Given<'_>,
        key: u32,
        call: u32,
    ) -> Result<Option<u32>, NoMemory> {
        let Some(own) = self.keys.get(key as usize) else {
            return Ok(None);
        };
        let needs_it = given.source_of(call) == own.maker;
        let mut other = own.head;
        for _ in 0..MOST_WAITING {
            let Some(one) = given.get(other) else {
                break;
            };
            if self.now <= one.sent {
                break;
            }
            if self.may_precede(given, other, call) {
                let must = self.reads(given, own.maker, needs_it, other, one)
                    && self.leaves(given, own.held.sight(), other, call)?;
                let may = self.is_made(given.learned.before(other));
                if (must && may) || given.learned.comes_before(other, call) {
                    return Ok(Some(other));
                }
            }
            other = self.after(other);
        }
        Ok(None)
    }

    // Checks whether a call can be made after another one that shows what its key has, if nothing was known
    // of the key.
    fn leaves(
        &self,
        given: Given<'_>,
        sight: Sight<'_>,
        other: u32,
        call: u32,
    ) -> Result<bool, NoMemory> {
        match (sight, given.get(call)) {
            (Sight::Any, Some(one)) if one.call.key().is_some() => self.helps(given, other, one),
            _ => Ok(true),
        }
    }

    // Checks whether a call that waits needs what a maker left, or can be made now.
    fn reads(
        &self,
        given: Given<'_>,
        maker: u32,
        needs_it: bool,
        other: u32,
        one: &Observed,
    ) -> bool {
        let source = given.source_of(other);
        let sees = source != NONE && source == maker;
        if changes(one) {
            sees && !needs_it
        } else if source != NONE {
            sees
        } else {
            self.decide(given, other, false).is_some() && self.may_come(given, other)
        }
    }

    // Checks whether all calls before a call in its session are made, or can be made now and leave what
    // their keys have.
    fn may_come(&self, given: Given<'_>, call: u32) -> bool {
        let mut before = given.before(call);
        for _ in 0..MOST_BEFORE {
            if self.is_made(before) {
                return true;
            }
            match given.get(before) {
                Some(one)
                    if self.waits(before)
                        && self.is_made(given.learned.before(before))
                        && self.is_idle(given, before, one) => {
                    before = given.before(before);
                }
                _ => return false,
            }
        }
        false
    }

    // Checks whether nobody is known to have found what a call without an answer made.
    pub(crate) fn is_unseen(&self, given: Given<'_>, call: u32, one: &Observed) -> bool {
        let seen = match given.links.makers.seen.get(call as usize) {
            Some(seen) => *seen,
            None => true,
        };
        !seen && changes(one) && matches!(one.shown, Shown::Nothing | Shown::NoFailure)
    }

    // Checks whether the answer of a call is possible now, and its key keeps what it has.
    pub(crate) fn is_idle(&self, given: Given<'_>, call: u32, one: &Observed) -> bool {
        let key = given.key_of(call);
        match (self.decide(given, call, false), self.keys.get(key as usize)) {
            (Some(decided), Some(own)) => !changes(one) || decided.keeps(own.held.sight()),
            _ => false,
        }
    }

    // Checks whether a call that waits may be made before another one: it does not come after that one in
    // its session.
    pub(crate) fn may_precede(&self, given: Given<'_>, other: u32, call: u32) -> bool {
        let before = given.before(other);
        let follows = match (given.get(other), given.get(call)) {
            (Some(one), Some(later)) => call < other && are_of_one_session(one, later),
            _ => false,
        };
        other != call
            && !follows
            && self.waits(other)
            && (self.is_made(before) || self.waits(before))
            && self.is_sent(given, other)
    }

    // Finds a change that must be made before the calls that need what a call makes: it must be made
    // before the last of them is sent.
    pub(crate) fn earlier_change(
        &self,
        given: Given<'_>,
        key: u32,
        call: u32,
    ) -> Result<Option<u32>, NoMemory> {
        let (Some(own), Some(one), Some(decided)) = (
            self.keys.get(key as usize),
            given.get(call),
            self.decide(given, call, false),
        ) else {
            return Ok(None);
        };
        let place = self.order.len();
        let after = held_after(self.alloc, own.held.sight(), one, decided, place)?;
        let then = match &after {
            Some(held) => held.sight(),
            None => own.held.sight(),
        };
        let first = self.change_before(given, key, call, one, then);
        drop(after);
        first
    }

    // Finds the same change, if the key has this after the call.
    fn change_before(
        &self,
        given: Given<'_>,
        key: u32,
        call: u32,
        later: &Observed,
        then: Sight<'_>,
    ) -> Result<Option<u32>, NoMemory> {
        let Some(own) = self.keys.get(key as usize) else {
            return Ok(None);
        };
        let mut first = None;
        let mut least = time_at(given.links.times.span.as_slice(), call);
        let mut other = own.head;
        for _ in 0..MOST_WAITING {
            let Some(one) = given.get(other) else {
                break;
            };
            if self.now <= one.sent {
                break;
            }
            let due = given.calls().due(other);
            if due <= least && changes(one) && self.may_precede(given, other, call) {
                let source = given.source_of(other);
                let may = source == NONE || (own.maker != NONE && source == own.maker);
                if may && !is_kept_by(then, one) && self.helps(given, other, later)? {
                    first = Some(other);
                    least = due.saturating_sub(1);
                }
            }
            other = self.after(other);
        }
        Ok(first)
    }
}

// Checks whether a call can be made at a key that has this, and the key keeps it.
fn is_kept_by(sight: Sight<'_>, one: &Observed) -> bool {
    match decide_after(sight, one) {
        Some(decided) => decided.keeps(sight),
        None => false,
    }
}
