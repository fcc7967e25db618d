//! Making a call in the order that grows.

use crate::at_key::AtKey;
use crate::pass::{Given, Pass, Progress};
use mc_calls::Call;
use zy_base::NoMemory;
use zy_refute::Observed;
use zy_search::{AT_FIRST, Decided, Held, decide};
use zy_sources::{NONE, at, found_another, small};
use zy_verdict::{Choice, Placement};

// The number of an item that was there at first, among the offsets of those that store items.
const FIRST: u32 = NONE - 1;

impl Pass {
    // Returns what a call would do at its key, if its answer is possible now.
    pub(crate) fn decide(&self, given: Given<'_>, call: u32, may_lose: bool) -> Option<Decided> {
        let key = given.key_of(call);
        let (Some(one), Some(own)) = (given.get(call), self.keys.get(key as usize)) else {
            return None;
        };
        if found_another(one)
            && own.maker != NONE
            && at(given.links.makers.source.as_slice(), call) == own.maker
        {
            return None;
        }
        match decide(own.held.sight(), one, may_lose, own.forget) {
            Some(decided) if self.may_show(key, own, decided) => Some(decided),
            _ => None,
        }
    }

    // Checks whether the item that is shown to have a unique can have it.
    fn may_show(&self, key: u32, own: &AtKey, decided: Decided) -> bool {
        match decided.shown {
            Some(shown) => {
                let known = self.shown.get(own.unique_hash(key, shown.unique));
                (known == NONE || known == number_of(shown.origin))
                    && !own.others.contains(&shown.unique)
            }
            None => true,
        }
    }

    // Makes a call, as it was decided.
    pub(crate) fn make(
        &mut self,
        given: Given<'_>,
        call: u32,
        decided: Decided,
    ) -> Result<(), NoMemory> {
        let key = given.key_of(call);
        let place = self.order.len();
        self.note(key, decided)?;
        if let (Some(own), Some(one)) = (self.keys.get_mut(key as usize), given.get(call)) {
            own.take(self.alloc, call, one, decided, place)?;
        }
        self.place(given, call, decided.stores(), decided.choice, decided.lost)
    }

    // Notes what a call shows of the item that its key had.
    fn note(&mut self, key: u32, decided: Decided) -> Result<(), NoMemory> {
        if let Some(shown) = decided.shown {
            self.show(key, shown.origin, shown.unique);
            if let Some(own) = self.keys.get(key as usize) {
                let hash = own.unique_hash(key, shown.unique);
                self.shown.put(hash, number_of(shown.origin))?;
            }
        }
        if let Some(origin) = decided.unpadded {
            self.choose(origin, Choice::Plain);
        }
        if let Some(origin) = decided.gone {
            self.choose(origin, Choice::FailedAndGone);
        }
        Ok(())
    }

    // Puts a call at the end of the order.
    fn place(
        &mut self,
        given: Given<'_>,
        call: u32,
        stores: bool,
        choice: Choice,
        lost: bool,
    ) -> Result<(), NoMemory> {
        let mut unique = 0;
        if stores {
            self.unique = self.unique.saturating_add(1);
            unique = self.unique;
        }
        if let Some(one) = given.get(call) {
            self.order.push(Placement {
                name: one.name,
                unique,
                choice,
                lost,
            })?;
            self.made.push(call)?;
        }
        self.set(call, Progress::Made);
        self.unlink(given.key_of(call), call);
        Ok(())
    }

    // Makes a call that is about no key.
    pub(crate) fn make_keyless(
        &mut self,
        given: Given<'_>,
        call: u32,
        one: &Observed,
    ) -> Result<(), NoMemory> {
        if matches!(one.call, Call::Flush) {
            for own in &mut self.keys {
                if own.shard == one.shard {
                    own.hold(Held::Nothing);
                }
            }
        }
        self.place(given, call, false, Choice::Plain, false)?;
        self.pass_flushes(given);
        Ok(())
    }

    // Makes a call whatever its answer is.
    pub(crate) fn make_blindly(&mut self, given: Given<'_>, call: u32) -> Result<(), NoMemory> {
        self.place(given, call, false, Choice::Plain, false)
    }

    // Notes the unique of the item that was stored at an offset of the order, or of the first item of a key.
    fn show(&mut self, key: u32, origin: usize, unique: u64) {
        if origin == AT_FIRST {
            if let Some(own) = self.keys.get_mut(key as usize) {
                own.unique = Some(unique);
            }
        } else if let Some(placed) = self.order.get_mut(origin) {
            placed.unique = unique;
        }
    }

    fn choose(&mut self, origin: usize, choice: Choice) {
        if let Some(placed) = self.order.get_mut(origin) {
            placed.choice = choice;
        }
    }
}

// Returns the number of the item that was stored at an offset of the order.
fn number_of(origin: usize) -> u32 {
    if origin == AT_FIRST {
        FIRST
    } else {
        small(origin)
    }
}
