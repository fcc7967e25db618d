//! The calls of a key around a failure.

use crate::key_lists::KeyList;
use crate::pass::{Failure, Given};
use crate::settling::Piece;
use mc_calls::Call;
use std::alloc::Global;
use zy_base::NoMemory;
use zy_search::{Held, Listed, decide, held_after, look_for};
use zy_sources::{NONE, at, changes, small};

// How many changes before a failure are ordered anew at first, and how many calls after it.
const FIRST_CHANGES: usize = 8;

const FIRST_AFTER: usize = 8;

// The highest level.
const LAST_LEVEL: u32 = 10;

/// A failure, and the calls at its key.
#[derive(Clone, Copy)]
pub(crate) struct Open<'a> {
    pub(crate) failure: Failure,
    pub(crate) list: &'a KeyList,
    pub(crate) forget: bool,
    pub(crate) ranks: &'a [u32],
}

/// The calls around a failure: those that were made before this offset stay, and those that are sent from
/// this moment on do not count.
#[derive(Clone, Copy)]
pub(crate) struct Around {
    from: usize,
    /// The last call that stays.
    pub(crate) last: u32,
    pub(crate) until: u64,
}

// What a key has, and the call that made it.
#[derive(Drop)]
struct Begun {
    held: Held,
    maker: u32,
}

impl Around {
    // Returns the calls around a failure.
    pub(crate) fn of(given: Given<'_>, open: Open<'_>, level: u32) -> Around {
        let factor = factor_of(level);
        let count = FIRST_CHANGES.saturating_mul(factor);
        let made = open.list.made.as_slice();
        let mut from = open.list.made_before(open.failure.made);
        let mut found: usize = 0;
        for _ in 0..made.len() {
            let Some(before) = from.checked_sub(1) else {
                break;
            };
            if is_change(given, at(made, small(before))) {
                if found == count {
                    break;
                }
                found = found.saturating_add(1);
            }
            from = before;
        }
        let last = match from.checked_sub(1) {
            Some(before) => at(made, small(before)),
            None => NONE,
        };
        let after = FIRST_AFTER.saturating_mul(factor);
        let until = open.list.end_of(given, open.failure.call, after);
        Around { from, last, until }
    }

    // Checks whether these are all calls at the key.
    pub(crate) fn is_all(self) -> bool {
        self.from == 0 && self.until == u64::MAX
    }

    // Finds an order of these calls, and lowers `left` by the number of calls that it looked at. If these
    // begin at first, the key may have had something else than was guessed.
    pub(crate) fn piece(
        self,
        alloc: Global,
        given: Given<'_>,
        open: Open<'_>,
        most: usize,
        left: &mut usize,
    ) -> Result<Option<Piece>, NoMemory> {
        let key = open.failure.key;
        let is_guessed = given.learned.guesses.is_guessed(key);
        let mut unguessed = false;
        let mut found = self.order(alloc, given, open, true, most, left)?;
        if found.is_none() && is_guessed && self.from == 0 {
            unguessed = true;
            found = self.order(alloc, given, open, false, most, left)?;
        }
        match found {
            Some(calls) => Ok(Some(Piece {
                key,
                last: self.last,
                calls,
                unguessed,
            })),
            None => Ok(None),
        }
    }

    // Finds an order of these calls; if not `guessed`, the key may have had anything at first.
    fn order(
        self,
        alloc: Global,
        given: Given<'_>,
        open: Open<'_>,
        guessed: bool,
        most: usize,
        left: &mut usize,
    ) -> Result<Option<Vec<u32>>, NoMemory> {
        let begun = self.begun(alloc, given, open, guessed)?;
        let mut list = Vec::new(alloc);
        let found = match self.add_calls(given, open, &mut list) {
            Ok(()) => self.look(alloc, given, open, &begun, &list, most, left),
            Err(refused) => Err(refused),
        };
        drop(list);
        drop(begun);
        found
    }

    // Looks for an order of these calls, at first for one that keeps the known sources.
    fn look(
        self,
        alloc: Global,
        given: Given<'_>,
        open: Open<'_>,
        begun: &Begun,
        list: &[u32],
        most: usize,
        left: &mut usize,
    ) -> Result<Option<Vec<u32>>, NoMemory> {
        let most = list.len().saturating_mul(most);
        let listed = Listed {
            calls: given.calls(),
            list,
            ranks: open.ranks,
            forget: open.forget,
            held: &begun.held,
            maker: begun.maker,
            until: self.until,
        };
        match look_for(alloc, listed, true, most, left)? {
            Some(calls) => Ok(Some(calls)),
            None => look_for(alloc, listed, false, most, left),
        }
    }

    // Adds these calls, by their sendings.
    fn add_calls(
        self,
        given: Given<'_>,
        open: Open<'_>,
        calls: &mut Vec<u32>,
    ) -> Result<(), NoMemory> {
        let made = open.list.made.as_slice();
        let least = match made.get(self.from) {
            Some(call) if self.from < open.list.made_before(open.failure.made) => {
                at(open.ranks, *call) as usize
            }
            _ => open.failure.made,
        };
        for call in &open.list.sent {
            let Some(one) = given.get(*call) else {
                continue;
            };
            if self.until <= one.sent {
                break;
            }
            if least <= at(open.ranks, *call) as usize {
                calls.push(*call)?;
            }
        }
        Ok(())
    }

    // Returns what the key has before these calls.
    fn begun(
        self,
        alloc: Global,
        given: Given<'_>,
        open: Open<'_>,
        guessed: bool,
    ) -> Result<Begun, NoMemory> {
        let made = open.list.made.as_slice();
        let key = given.get(open.failure.call).and_then(|one| one.call.key());
        let firsts = given.rules.firsts();
        let held = if guessed {
            given.learned.guesses.held(firsts, open.failure.key, key)?
        } else {
            firsts.at(key)?
        };
        let mut begun = Begun { held, maker: NONE };
        let from = self.last_set(given, made);
        let taken = begun.add_all(alloc, given, open.forget, made, from, self.from);
        match taken {
            Ok(()) => {
                begun.held.set_before();
                Ok(begun)
            }
            Err(refused) => {
                drop(begun);
                Err(refused)
            }
        }
    }

    // Returns the offset of the last set before these calls; 0 if there is none.
    fn last_set(self, given: Given<'_>, made: &[u32]) -> usize {
        let mut from = self.from;
        for _ in 0..made.len() {
            let Some(before) = from.checked_sub(1) else {
                break;
            };
            from = before;
            if let Some(one) = given.get(at(made, small(before)))
                && let Call::Set { .. } = one.call
            {
                break;
            }
        }
        from
    }
}

impl Begun {
    // Makes the calls of a list between two offsets.
    fn add_all(
        &mut self,
        alloc: Global,
        given: Given<'_>,
        forget: bool,
        made: &[u32],
        from: usize,
        end: usize,
    ) -> Result<(), NoMemory> {
        for place in from..end {
            self.add(alloc, given, forget, at(made, small(place)), place)?;
        }
        Ok(())
    }

    // Makes a call.
    fn add(
        &mut self,
        alloc: Global,
        given: Given<'_>,
        forget: bool,
        call: u32,
        place: usize,
    ) -> Result<(), NoMemory> {
        let Some(one) = given.get(call) else {
            return Ok(());
        };
        let Some(decided) = decide(self.held.sight(), one, true, forget) else {
            return Ok(());
        };
        if !decided.keeps(self.held.sight()) {
            self.maker = call;
        }
        let after = held_after(alloc, self.held.sight(), one, decided, place)?;
        match after {
            Some(held) => drop(std::mem::replace(&mut self.held, held)),
            None => {}
        }
        Ok(())
    }
}

// Returns by which factor a level has more calls tried than the first one.
fn factor_of(level: u32) -> usize {
    let mut factor: usize = 1;
    for _ in 0..level.min(LAST_LEVEL) {
        factor = factor.saturating_mul(4);
    }
    factor
}

// Checks whether a call may change what its key has.
fn is_change(given: Given<'_>, call: u32) -> bool {
    match given.get(call) {
        Some(one) => changes(one),
        None => false,
    }
}
