//! Gives each taker of a fact a maker of its own, as long as there are enough.

use crate::candidates::breaks;
use crate::makers::Maker;
use crate::observed::Observed;
use crate::order::is_surely_before;
use crate::takers::Taker;
use mc_allows::Fact;
use std::alloc::Global;
use zy_base::NoMemory;

// So many calls before a taker are looked at for one that breaks the fact.
const LOOK_LIMIT: usize = 4096;

/// Takers of a fact, its makers, and which of these each taker has.
#[derive(Drop)]
pub(crate) struct Matching {
    makers: Vec<Maker>,
    /// For each taker the offset of its maker.
    own: Vec<Option<usize>>,
}

impl Matching {
    /// Begins with makers that no taker has.
    pub(crate) fn new(alloc: Global, makers: Vec<Maker>) -> Matching {
        Matching {
            makers,
            own: Vec::new(alloc),
        }
    }

    /// Gives the next taker a maker, for which others may get another one. If there are too few, it
    /// returns the places of takers that have fewer makers than they are.
    pub(crate) fn place(
        &mut self,
        alloc: Global,
        calls: &[Observed],
        fact: &Fact,
        takers: &[Taker],
    ) -> Result<Option<Vec<usize>>, NoMemory> {
        let next = self.own.len();
        self.own.push(None)?;
        let mut reached = Vec::new(alloc);
        reached.push(next)?;
        for turn in 0..takers.len() {
            let Some(taker) = reached.get(turn) else {
                break;
            };
            let taker = *taker;
            if let Some(free) = self.reach(calls, fact, takers, next, taker, &mut reached)? {
                self.give(free);
                drop(reached);
                return Ok(None);
            }
        }
        let places = places_of(alloc, takers, &reached)?;
        drop(reached);
        Ok(Some(places))
    }

    // Looks for a maker of a taker that nobody has; otherwise adds those who have its makers.
    fn reach(
        &mut self,
        calls: &[Observed],
        fact: &Fact,
        takers: &[Taker],
        next: usize,
        taker: usize,
        reached: &mut Vec<usize>,
    ) -> Result<Option<usize>, NoMemory> {
        let Some(Taker { ended, at, .. }) = takers.get(taker) else {
            return Ok(None);
        };
        let Some(reader) = calls.get(*at) else {
            return Ok(None);
        };
        let breaker = last_break(calls, fact, *at)?;
        let end = first_after(self.makers.as_slice(), *ended);
        for back in 0..end {
            let offset = end - 1 - back;
            let Some(maker) = self.makers.get_mut(offset) else {
                break;
            };
            if is_past(maker, breaker) {
                break;
            }
            if maker.seen == Some(next) || !is_maker_for(calls, maker, *at, reader, breaker) {
                continue;
            }
            maker.seen = Some(next);
            maker.from = taker;
            match maker.given {
                Some(other) => reached.push(other)?,
                None => return Ok(Some(offset)),
            }
        }
        Ok(None)
    }

    // Gives a maker to the taker from which it was reached, whose own one goes on in the same way.
    fn give(&mut self, free: usize) {
        let mut offset = free;
        for _ in 0..self.own.len() {
            let Some(maker) = self.makers.get_mut(offset) else {
                return;
            };
            let taker = maker.from;
            maker.given = Some(taker);
            let Some(own) = self.own.get_mut(taker) else {
                return;
            };
            let before = *own;
            *own = Some(offset);
            let Some(before) = before else {
                return;
            };
            offset = before;
        }
    }
}

// Returns the places of takers, in their order.
fn places_of(
    alloc: Global,
    takers: &[Taker],
    reached: &Vec<usize>,
) -> Result<Vec<usize>, NoMemory> {
    let mut places = Vec::new(alloc);
    for taker in reached {
        if let Some(Taker { at, .. }) = takers.get(*taker) {
            places.push(*at)?;
        }
    }
    places.sort()?;
    Ok(places)
}

// Finds the last call before a reader that breaks the fact.
fn last_break<'a>(
    calls: &'a [Observed],
    fact: &Fact,
    reader: usize,
) -> Result<Option<&'a Observed>, NoMemory> {
    let Some(read) = calls.get(reader) else {
        return Ok(None);
    };
    for back in 0..reader {
        if back == LOOK_LIMIT {
            break;
        }
        if let Some(call) = calls.get(reader - 1 - back)
            && breaks(call, fact, read)?
        {
            return Ok(Some(call));
        }
    }
    Ok(None)
}

// Returns the offset of the first maker that was sent after a moment; the makers are in the order in
// which they were sent.
fn first_after(makers: &[Maker], moment: u64) -> usize {
    let mut low = 0;
    let mut high = makers.len();
    for _ in 0..64 {
        if high <= low {
            break;
        }
        let middle = low + (high - low) / 2;
        match makers.get(middle) {
            Some(maker) if maker.sent <= moment => low = middle + 1,
            _ => high = middle,
        }
    }
    low
}

// Checks whether a maker and all before it had ended when the breaker was sent.
fn is_past(maker: &Maker, breaker: Option<&Observed>) -> bool {
    match breaker {
        Some(breaker) => maker.latest < breaker.sent,
        None => false,
    }
}

// Checks whether a maker is a possible source for a reader, as far as this breaker tells.
fn is_maker_for(
    calls: &[Observed],
    maker: &Maker,
    at: usize,
    reader: &Observed,
    breaker: Option<&Observed>,
) -> bool {
    let Some(own) = maker.at else {
        return breaker.is_none();
    };
    let Some(call) = calls.get(own) else {
        return false;
    };
    if own == at || is_surely_before(reader, call) {
        return false;
    }
    match breaker {
        Some(breaker) => !is_surely_before(call, breaker),
        None => true,
    }
}
