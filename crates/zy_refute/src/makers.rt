//! Calls that can have made a fact.

use crate::observed::Observed;
use crate::store::Store;
use crate::takers::Taken;
use mc_allows::{Fact, Shown, holds_without, may_make, padded_number};
use mc_calls::{Call, CallReply};
use std::alloc::Global;
use zy_base::NoMemory;

/// A call that can have made a fact, or the start.
#[derive(Clone, Copy)]
pub(crate) struct Maker {
    /// The call's place in the list; the start has none.
    pub(crate) at: Option<usize>,
    pub(crate) sent: u64,
    /// The last end of this maker and of those before it.
    pub(crate) latest: u64,
    /// The taker that has it.
    pub(crate) given: Option<usize>,
    /// The taker from which it was reached last, and for which taker this was.
    pub(crate) from: usize,
    pub(crate) seen: Option<usize>,
}

// A call that makes this number, and no other.
#[derive(Clone, Copy, PartialEq, Eq, PartialOrd, Ord)]
struct Numbered {
    number: u64,
    at: usize,
}

/// The calls of a list that make numbers.
#[derive(Drop)]
pub(crate) struct Counters {
    numbered: Vec<Numbered>,
    /// Calls that may make any number.
    others: Vec<usize>,
    /// Those before this offset make lesser numbers than were asked for.
    from: usize,
}

impl Counters {
    /// Finds the calls that make numbers.
    pub(crate) fn new(alloc: Global, calls: &[Observed]) -> Result<Counters, NoMemory> {
        let mut numbered = Vec::new(alloc);
        let mut others = Vec::new(alloc);
        let zero = Fact::Number { number: 0 };
        for at in 0..calls.len() {
            match number_made(&calls[at]) {
                Some(number) => numbered.push(Numbered { number, at })?,
                None => {
                    if may_make(&calls[at].call, &calls[at].shown, &zero) {
                        others.push(at)?;
                    }
                }
            }
        }
        drop(zero);
        numbered.sort()?;
        Ok(Counters {
            numbered,
            others,
            from: 0,
        })
    }

    // Returns the places of calls that may make this number; the numbers that are asked for rise.
    fn places(&mut self, alloc: Global, number: u64) -> Result<Vec<usize>, NoMemory> {
        let mut places = Vec::new(alloc);
        for other in &self.others {
            places.push(*other)?;
        }
        for offset in self.from..self.numbered.len() {
            let Some(one) = self.numbered.get(offset) else {
                break;
            };
            if number < one.number {
                break;
            }
            if one.number == number {
                places.push(one.at)?;
            } else {
                self.from = offset;
            }
        }
        places.sort()?;
        Ok(places)
    }
}

// Returns the number that a call makes, if it makes no other.
fn number_made(call: &Observed) -> Option<u64> {
    match &call.call {
        Call::Set { value, .. } | Call::Add { value, .. } => padded_number(value.bytes()),
        Call::Replace { value, .. } | Call::Cas { value, .. } => padded_number(value.bytes()),
        Call::Incr { .. } | Call::Decr { .. } => match &call.shown {
            Shown::Reply {
                reply: CallReply::Number { number },
            } => Some(*number),
            _ => None,
        },
        _ => None,
    }
}

/// Returns the start, if it can have made the fact, and the calls that can, in the order of the list.
pub(crate) fn makers_of(
    alloc: Global,
    store: Store,
    calls: &[Observed],
    counters: &mut Counters,
    taken: Taken,
) -> Result<Vec<Maker>, NoMemory> {
    let fact = taken.fact();
    let mut makers = Vec::new(alloc);
    if store.warm || holds_without(&fact) {
        makers.push(ungiven(None, 0, 0))?;
    }
    match taken {
        Taken::Number(number) => {
            let places = counters.places(alloc, number)?;
            for at in &places {
                add_maker(calls, &fact, &mut makers, *at)?;
            }
            drop(places);
        }
        _ => {
            for at in 0..calls.len() {
                add_maker(calls, &fact, &mut makers, at)?;
            }
        }
    }
    drop(fact);
    Ok(makers)
}

fn ungiven(at: Option<usize>, sent: u64, latest: u64) -> Maker {
    Maker {
        at,
        sent,
        latest,
        given: None,
        from: 0,
        seen: None,
    }
}

// Adds the call at a place if it can have made the fact.
fn add_maker(
    calls: &[Observed],
    fact: &Fact,
    makers: &mut Vec<Maker>,
    at: usize,
) -> Result<(), NoMemory> {
    let Some(call) = calls.get(at) else {
        return Ok(());
    };
    if !may_make(&call.call, &call.shown, fact) {
        return Ok(());
    }
    let ended = call.ended.unwrap_or(u64::MAX);
    let latest = match makers.last() {
        Some(last) => last.latest.max(ended),
        None => ended,
    };
    makers.push(ungiven(Some(at), call.sent, latest))?;
    Ok(())
}
