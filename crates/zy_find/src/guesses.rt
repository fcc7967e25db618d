//! Guesses of what keys had at first: calls without an answer came before the first one that tells.

use crate::order::Rules;
use mc_allows::Shown;
use mc_calls::{Call, CallReply};
use std::alloc::Global;
use zy_base::{Blob, NoMemory};
use zy_refute::Observed;
use zy_search::{
    FirstItem, Firsts, Held, Was, held_at_first, item_that_was, tells_nothing, told_by, was_before,
};
use zy_sources::{Links, NONE, at, changes, put, small};

// How many calls before the first one that tells are looked at.
const MOST: usize = 64;

/// What a key may have had at first.
#[derive(Drop)]
pub(crate) enum Guess {
    /// Nothing is guessed.
    Open,
    /// No item.
    Nothing,
    /// This item.
    Item(FirstItem),
}

/// Guesses of what keys had at first.
#[derive(Drop)]
pub(crate) struct Guesses {
    of: Vec<Guess>,
}

// The calls at each key up to the first one that tells what it had.
#[derive(Drop)]
struct Begins {
    /// For each key the last call that was looked at, or `NONE`.
    last: Vec<u32>,
    /// For each key whether a call told what it had, or that nothing can be guessed.
    told: Vec<bool>,
    /// For each key whether an answer showed that it had an item, but not which.
    some: Vec<bool>,
    /// For each call the one before it at its key, or `NONE`.
    before: Vec<u32>,
}

impl Guesses {
    // Guesses what keys had at first, if they may have had anything.
    pub(crate) fn new(
        alloc: Global,
        rules: Rules<'_>,
        observed: &[Observed],
        links: &Links,
    ) -> Result<Guesses, NoMemory> {
        let mut guesses = Guesses {
            of: Vec::new(alloc),
        };
        let guessed = match rules.firsts() {
            Firsts::Any => guesses.guess_all(alloc, observed, links),
            _ => Ok(()),
        };
        match guessed {
            Ok(()) => Ok(guesses),
            Err(refused) => {
                drop(guesses);
                Err(refused)
            }
        }
    }

    // Guesses what all keys had.
    fn guess_all(
        &mut self,
        alloc: Global,
        observed: &[Observed],
        links: &Links,
    ) -> Result<(), NoMemory> {
        let count = links.keys.first.len();
        for _ in 0..count {
            self.of.push(Guess::Open)?;
        }
        let mut begins = Begins {
            last: Vec::from_elem(alloc, NONE, count)?,
            told: Vec::from_elem(alloc, false, count)?,
            some: Vec::from_elem(alloc, false, count)?,
            before: Vec::from_elem(alloc, NONE, observed.len())?,
        };
        let guessed = match self.guess_told(alloc, observed, links, &mut begins) {
            Ok(()) => self.guess_rest(alloc, observed, &begins),
            Err(refused) => Err(refused),
        };
        drop(begins);
        guessed
    }

    // Guesses what those keys had of which a call told something.
    fn guess_told(
        &mut self,
        alloc: Global,
        observed: &[Observed],
        links: &Links,
        begins: &mut Begins,
    ) -> Result<(), NoMemory> {
        for call in &links.sorted.by_sent {
            let key = at(links.keys.of.as_slice(), *call);
            let Some(one) = observed.get(*call as usize) else {
                continue;
            };
            if begins.is_told(key) {
                continue;
            }
            if let Some(was) = told_by(one) {
                begins.tell(key);
                let guess = begins.guess(alloc, observed, key, was)?;
                self.put(key, guess);
            } else if tells_nothing(one) {
                begins.tell(key);
                self.guess_some(alloc, observed, begins, key)?;
            } else {
                begins.add(key, *call, one);
            }
        }
        Ok(())
    }

    // Guesses what the other keys had.
    fn guess_rest(
        &mut self,
        alloc: Global,
        observed: &[Observed],
        begins: &Begins,
    ) -> Result<(), NoMemory> {
        for key in 0..begins.told.len() {
            if !begins.is_told(small(key)) {
                self.guess_some(alloc, observed, begins, small(key))?;
            }
        }
        Ok(())
    }

    // Guesses what a key had, if answers showed only that it had an item.
    fn guess_some(
        &mut self,
        alloc: Global,
        observed: &[Observed],
        begins: &Begins,
        key: u32,
    ) -> Result<(), NoMemory> {
        if let Some(true) = begins.some.get(key as usize).copied() {
            let guess = begins.guess(alloc, observed, key, Was::Some)?;
            self.put(key, guess);
        }
        Ok(())
    }

    // Notes a guess.
    fn put(&mut self, key: u32, guess: Guess) {
        if let Some(own) = self.of.get_mut(key as usize) {
            drop(std::mem::replace(own, guess));
        } else {
            drop(guess);
        }
    }

    // Guesses nothing of a key any more.
    pub(crate) fn forget(&mut self, key: u32) {
        self.put(key, Guess::Open);
    }

    // Checks whether something is guessed of a key.
    pub(crate) fn is_guessed(&self, key: u32) -> bool {
        match self.of.get(key as usize) {
            Some(Guess::Open) => false,
            Some(_) => true,
            None => false,
        }
    }

    // Returns what a key has at first, as far as it is known or guessed.
    pub(crate) fn held(
        &self,
        firsts: Firsts<'_>,
        number: u32,
        key: Option<&Blob>,
    ) -> Result<Held, NoMemory> {
        match self.of.get(number as usize) {
            Some(Guess::Item(item)) => held_at_first(item.flags, &item.value),
            Some(Guess::Nothing) => Ok(Held::Nothing),
            _ => firsts.at(key),
        }
    }

    // Returns the item that a key is guessed to have had at first.
    pub(crate) fn item(&self, number: u32) -> Result<Option<FirstItem>, NoMemory> {
        match self.of.get(number as usize) {
            Some(Guess::Item(item)) => Ok(Some(item.copy()?)),
            _ => Ok(None),
        }
    }
}

impl Begins {
    // Checks whether a key needs no guess any more; what is no key needs none.
    fn is_told(&self, key: u32) -> bool {
        match self.told.get(key as usize) {
            Some(told) => *told,
            None => true,
        }
    }

    fn tell(&mut self, key: u32) {
        if let Some(own) = self.told.get_mut(key as usize) {
            *own = true;
        }
    }

    // Adds a call that did not tell what its key had.
    fn add(&mut self, key: u32, call: u32, one: &Observed) {
        if finds_some(one)
            && let Some(own) = self.some.get_mut(key as usize)
        {
            *own = true;
        }
        if changes(one) {
            let last = at(self.last.as_slice(), key);
            put(self.before.as_mut_slice(), call, last);
            put(self.last.as_mut_slice(), key, call);
        }
    }

    // Guesses what a key had before the calls that were looked at, if it had this after them.
    fn guess(
        &self,
        alloc: Global,
        observed: &[Observed],
        key: u32,
        told: Was<'_>,
    ) -> Result<Guess, NoMemory> {
        let mut call = at(self.last.as_slice(), key);
        let mut silent = false;
        let mut was = told;
        for _ in 0..MOST {
            let Some(one) = observed.get(call as usize) else {
                break;
            };
            silent = silent || matches!(one.shown, Shown::Nothing | Shown::NoFailure);
            match was_before(one, was) {
                Some(before) => was = before,
                None => return Ok(Guess::Open),
            }
            call = at(self.before.as_slice(), call);
        }
        if call != NONE || !silent {
            return Ok(Guess::Open);
        }
        match item_that_was(alloc, was)? {
            Some(item) => Ok(Guess::Item(item)),
            None => Ok(Guess::Nothing),
        }
    }
}

// Checks whether an answer shows that there was an item, but not which.
fn finds_some(one: &Observed) -> bool {
    match (&one.shown, &one.call) {
        (Shown::SomeHit, _) => true,
        (
            Shown::Reply {
                reply: CallReply::Exists | CallReply::NotNumber,
            },
            _,
        ) => true,
        (
            Shown::Reply {
                reply: CallReply::NotStored,
            },
            Call::Add { .. },
        ) => true,
        (
            Shown::Reply {
                reply: CallReply::Stored,
            },
            Call::Append { .. } | Call::Prepend { .. },
        ) => true,
        _ => false,
    }
}
