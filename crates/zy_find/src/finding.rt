//! Looking for an order of all calls.

use crate::at_key::AtKey;
use crate::guesses::Guesses;
use crate::learned::Learned;
use crate::order::{Found, Rules};
use crate::pass::{Given, Pass};
use crate::settling::{Settled, settle};
use mc_calls::Item;
use std::alloc::Global;
use std::collections::BTreeSet;
use zy_base::{Blob, NoMemory};
use zy_items::KeptItem;
use zy_refute::Observed;
use zy_search::FirstItem;
use zy_sources::{Links, links_of};
use zy_verdict::Order;

// How often all calls are made.
const ROUNDS: usize = 12;

// How many calls are looked at in a search: for each call that is recorded, and in addition.
const MOST_LOOKED: usize = 32;

const SOME_LOOKED: usize = 1 << 22;

// How many calls are looked at for a step.
const LOOKED_PER_STEP: usize = 8;

// What a pass comes to.
#[derive(Drop)]
enum Passed {
    /// This was found.
    Found(Found),
    /// It failed, and this was settled.
    Settled(Settled),
}

/// Looks for an order of the calls of a recording. The calls of each session stand together, in their
/// order. The items of the keys in `lasting` may be lost whatever the rules say. At most `most` steps are
/// taken at a key for each of its calls. May answer `NoMemory`.
pub fn find(
    alloc: Global,
    rules: Rules<'_>,
    lasting: &BTreeSet<Blob>,
    observed: &[Observed],
    most: usize,
) -> Result<Found, NoMemory> {
    let warm = rules.may_have_items();
    let links = links_of(alloc, warm, rules.forget, lasting, observed)?;
    let found = find_with(alloc, rules, observed, &links, most);
    drop(links);
    found
}

// Looks for an order with what is known of the calls.
fn find_with(
    alloc: Global,
    rules: Rules<'_>,
    observed: &[Observed],
    links: &Links,
    most: usize,
) -> Result<Found, NoMemory> {
    let guesses = Guesses::new(alloc, rules, observed, links)?;
    let mut learned = Learned::new(alloc, observed.len(), guesses)?;
    let found = find_learning(alloc, rules, observed, links, &mut learned, most);
    drop(learned);
    found
}

// Makes all calls until no call fails or nothing new is learned.
fn find_learning(
    alloc: Global,
    rules: Rules<'_>,
    observed: &[Observed],
    links: &Links,
    learned: &mut Learned,
    most: usize,
) -> Result<Found, NoMemory> {
    let steps = most.saturating_mul(LOOKED_PER_STEP);
    let mut left = SOME_LOOKED.saturating_add(observed.len().saturating_mul(MOST_LOOKED));
    for round in 0..ROUNDS {
        let given = Given {
            observed,
            links,
            learned,
            rules,
        };
        let settled = match pass_once(alloc, given, steps, left)? {
            Passed::Found(found) => return Ok(found),
            Passed::Settled(settled) => settled,
        };
        left = settled.left;
        let ends = settled.ends() || round + 1 == ROUNDS;
        learned.learn_all(observed, &settled);
        let calls = settled.into_calls();
        if ends {
            return Ok(Found::Nothing { calls });
        }
        drop(calls);
    }
    Ok(Found::Nothing {
        calls: Vec::new(alloc),
    })
}

// Makes all calls once. If some failed, the calls around them are settled.
fn pass_once(
    alloc: Global,
    given: Given<'_>,
    steps: usize,
    left: usize,
) -> Result<Passed, NoMemory> {
    let mut pass = Pass::new(alloc, given)?;
    match pass.run(given) {
        Ok(()) if pass.failures.is_empty() => Ok(Passed::Found(pass.into_found(given)?)),
        Ok(()) => {
            let settled = settle(alloc, given, &pass, steps, left);
            drop(pass);
            Ok(Passed::Settled(settled?))
        }
        Err(refused) => {
            drop(pass);
            Err(refused)
        }
    }
}

impl Pass {
    // Returns the order, with the items that the store begins with.
    fn into_found(self, given: Given<'_>) -> Result<Found, NoMemory> {
        let mut pass = self;
        let mut began = Vec::new(pass.alloc);
        let begun = match given.rules.begun {
            Some(begun) => pass.number_all(given, begun.bound),
            None => pass.begin_into(given, &mut began),
        };
        match begun {
            Ok(()) => {
                let none = Vec::new(pass.alloc);
                let order = std::mem::replace(&mut pass.order, none);
                drop(pass);
                Ok(Found::Ordered {
                    order: Order::from_vec(order),
                    began,
                })
            }
            Err(refused) => {
                drop(pass);
                drop(began);
                Err(refused)
            }
        }
    }

    // Takes the items that the store begins with; those whose uniques no answer showed have others.
    fn begin_into(&mut self, given: Given<'_>, began: &mut Vec<KeptItem>) -> Result<(), NoMemory> {
        let mut unique = self.unique;
        for own in &mut self.keys {
            unique = unique.saturating_add(1);
            if let Some(one) = own.take_began(given, unique)? {
                began.push(one)?;
            }
        }
        Ok(())
    }
}

impl AtKey {
    // Takes the item that was there at first, if there was one; it has this unique if no answer showed its
    // own.
    fn take_began(&mut self, given: Given<'_>, last: u64) -> Result<Option<KeptItem>, NoMemory> {
        let key = match given.get(self.call) {
            Some(one) => match one.call.key() {
                Some(key) => key.copy()?,
                None => return Ok(None),
            },
            None => return Ok(None),
        };
        match std::mem::replace(&mut self.first, None) {
            Some(FirstItem { flags, value }) => {
                let item = Item {
                    flags,
                    unique: self.unique.unwrap_or(last),
                    value,
                };
                Ok(Some(KeptItem { key, item }))
            }
            None => {
                drop(key);
                Ok(None)
            }
        }
    }
}
