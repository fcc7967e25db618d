//! The rule `shared`: some sure calls need one fact and take it away, and fewer calls can have made it.
ghost use Rattle.std.specs.Prelude.{◌≤◌, ◌<◌, ◌+◌, length, IfOk};
ghost use Rattle.zy_refute.specs.Shared.{IsRefutationOfApart};

use crate::makers::{Counters, makers_of};
use crate::matching::Matching;
use crate::observed::Observed;
use crate::sharing::is_shared;
use crate::store::Store;
use crate::takers::{Taker, takers_of};
use crate::unmet::is_first;
use mc_allows::Fact;
use std::alloc::Global;
use zy_base::NoMemory;

// So many calls are looked at for one fact.
const MOST_READERS: usize = 1024;

/// Finds sure calls that need one fact and take it away, while fewer calls can have made it, so that
/// the calls have no order, if all have different names. It names the last of them to end; of several
/// such the one that ended first. The calls are to be in the order in which they were sent; otherwise
/// less is found.
pub fn find_shared(
    alloc: Global,
    store: Store,
    calls: &[Observed],
) -> Result<Option<usize>, NoMemory>
    ensures none { IfOk result (λ found. IsRefutationOfApart store calls.now found) }
{
    let takers = takers_of(alloc, calls)?;
    let found = find_among(alloc, store, calls, takers.as_slice());
    drop(takers);
    found
}

// Finds calls that have too few sources, among these.
fn find_among(
    alloc: Global,
    store: Store,
    calls: &[Observed],
    takers: &[Taker],
) -> Result<Option<usize>, NoMemory>
    ensures none { IfOk result (λ found. IsRefutationOfApart store calls.now found) }
{
    let mut counters = Counters::new(alloc, calls)?;
    let mut found = None;
    for at in 0..takers.len() {
        let many = group_at(takers, at);
        if 1 < many {
            let group = &takers[at..at + many];
            found = with_group(alloc, store, calls, &mut counters, found, group)?;
        }
    }
    drop(counters);
    Ok(found)
}

// Returns how many calls take one fact away, if the call at an offset is the first of them.
fn group_at(takers: &[Taker], at: usize) -> usize
    requires at { at < length takers.now }
    ensures within { at + result ≤ length takers.now }
{
    if 0 < at && takers[at - 1].taken == takers[at].taken {
        return 0;
    }
    for end in at + 1..takers.len() {
        if takers[end].taken != takers[at].taken {
            return end - at;
        }
    }
    takers.len() - at
}

// Returns the call of a group that has too few sources, if it ended before the one that was found, and
// otherwise that one.
fn with_group(
    alloc: Global,
    store: Store,
    calls: &[Observed],
    counters: &mut Counters,
    found: Option<usize>,
    takers: &[Taker],
) -> Result<Option<usize>, NoMemory>
    requires found { IsRefutationOfApart store calls.now found }
    ensures none { IfOk result (λ found. IsRefutationOfApart store calls.now found) }
{
    let Some(Taker { taken, .. }) = takers.get(0) else {
        return Ok(found);
    };
    let fact = taken.fact();
    let makers = makers_of(alloc, store, calls, counters, *taken)?;
    let matching = Matching::new(alloc, makers);
    let short = first_short(alloc, calls, &fact, matching, takers);
    let found = match short {
        Ok(Some((readers, at))) => {
            let found = with_readers(alloc, store, calls, found, &fact, readers.as_slice(), at);
            drop(readers);
            found
        }
        Ok(None) => Ok(found),
        Err(refused) => Err(refused),
    };
    drop(fact);
    found
}

// Finds the first taker for which there is no maker left: the places of takers that have too few, and
// its own.
fn first_short(
    alloc: Global,
    calls: &[Observed],
    fact: &Fact,
    matching: Matching,
    takers: &[Taker],
) -> Result<Option<(Vec<usize>, usize)>, NoMemory> {
    let mut matching = matching;
    for taker in takers {
        if let Some(readers) = matching.place(alloc, calls, fact, takers)? {
            drop(matching);
            return Ok(Some((readers, taker.at)));
        }
    }
    drop(matching);
    Ok(None)
}

// Returns the call at a place if these readers have too few sources and it ended before the one that
// was found, and otherwise that one.
fn with_readers(
    alloc: Global,
    store: Store,
    calls: &[Observed],
    found: Option<usize>,
    fact: &Fact,
    readers: &[usize],
    at: usize,
) -> Result<Option<usize>, NoMemory>
    requires found { IsRefutationOfApart store calls.now found }
    ensures none { IfOk result (λ found. IsRefutationOfApart store calls.now found) }
{
    if calls.len() <= at || MOST_READERS < readers.len() {
        return Ok(found);
    }
    if !is_first(calls, found, &calls[at]) {
        return Ok(found);
    }
    if !is_shared(alloc, store, calls, fact, readers)? {
        return Ok(found);
    }
    Ok(Some(at))
}
