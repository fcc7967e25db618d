//! Looks for calls whose need may have no source, with bounded work for each.
ghost use Rattle.std.specs.Prelude.{◌<◌, ◌≤◌, length};

use crate::need::Need;
use crate::observed::Observed;
use crate::order::is_surely_before;
use crate::rests::{is_join, rest_of_join};
use mc_allows::{Fact, left_by, may_hold_beside, may_make, need_of};
use std::alloc::Global;
use zy_base::NoMemory;

// So many calls are looked at before it is taken that there is a source.
const LOOK_LIMIT: usize = 4096;

// So many rests of joined values are looked at before it is taken that there is a source.
const REST_LIMIT: u32 = 64;

/// Whether a call's need may have no source.
#[derive(Clone, Copy)]
pub(crate) enum Chance {
    /// It is taken to have one.
    Not,
    /// No source was found.
    Bare,
    /// A source was found, but none of the rest to which it joined its piece.
    Joined,
}

// What was found of the sources of a fact.
#[derive(Clone, Copy)]
enum Sources {
    Nothing,
    Some,
    /// The call at this place, which joined its piece to a rest.
    Join(usize),
}

// What was found of a rest.
#[derive(Drop)]
enum Step {
    /// A source that joined its piece to another rest.
    Rest { need: Need },
    /// A source, or none.
    Done { bare: bool },
}

/// Checks whether a sure call may have a need without a source, by the calls that were sent last
/// before it ended.
pub(crate) fn may_be_unmet(
    alloc: Global,
    calls: &[Observed],
    reader: usize,
) -> Result<Chance, NoMemory>
    requires within { reader < length calls.now }
{
    let call = &calls[reader];
    if !call.sure {
        return Ok(Chance::Not);
    }
    let need = need_of(&call.call, &call.shown)?;
    let chance = chance_of(alloc, calls, &need, reader);
    drop(need);
    chance
}

// Checks whether a fact may have no source for a reader.
fn chance_of(
    alloc: Global,
    calls: &[Observed],
    fact: &Fact,
    reader: usize,
) -> Result<Chance, NoMemory> {
    match first_step(alloc, calls, fact, reader)? {
        Step::Done { bare: true } => Ok(Chance::Bare),
        Step::Done { bare: false } => Ok(Chance::Not),
        Step::Rest { need } => {
            if is_bare(alloc, calls, need)? {
                Ok(Chance::Joined)
            } else {
                Ok(Chance::Not)
            }
        }
    }
}

// Checks whether a rest has no source, as far as the sources that were sent last tell.
fn is_bare(alloc: Global, calls: &[Observed], rest: Need) -> Result<bool, NoMemory> {
    let mut need = rest;
    for _ in 0..REST_LIMIT {
        match next_step(alloc, calls, need)? {
            Step::Rest { need: next } => need = next,
            Step::Done { bare } => return Ok(bare),
        }
    }
    drop(need);
    Ok(false)
}

// Looks for a source of a rest.
fn next_step(alloc: Global, calls: &[Observed], need: Need) -> Result<Step, NoMemory> {
    let step = first_step(alloc, calls, &need.fact, need.reader);
    drop(need);
    step
}

// Looks for a source of a fact for a reader.
fn first_step(
    alloc: Global,
    calls: &[Observed],
    fact: &Fact,
    reader: usize,
) -> Result<Step, NoMemory> {
    match sources_of(calls, fact, reader)? {
        Sources::Nothing => Ok(Step::Done { bare: true }),
        Sources::Some => Ok(Step::Done { bare: false }),
        Sources::Join(at) => match rest_of_join(alloc, calls, fact, at)? {
            Some(need) => Ok(Step::Rest { need }),
            None => Ok(Step::Done { bare: false }),
        },
    }
}

// Looks for a source among the calls that were sent last before the reader ended, from the last on.
fn sources_of(calls: &[Observed], fact: &Fact, reader: usize) -> Result<Sources, NoMemory> {
    if matches!(fact, Fact::Unknown) || reader >= calls.len() {
        return Ok(Sources::Some);
    }
    let mut breaker = None;
    let end = end_of(calls, reader);
    for back in 0..end {
        if back == LOOK_LIMIT {
            return Ok(past_limit(breaker));
        }
        let at = end - 1 - back;
        if at != reader && is_source(&calls[at], fact, &calls[reader], breaker) {
            return Ok(source_at(&calls[at], fact, at));
        }
        if breaker.is_none() && breaks(&calls[at], fact, &calls[reader])? {
            breaker = Some(&calls[at]);
        }
    }
    Ok(Sources::Nothing)
}

// Returns what is taken of the calls that were not looked at.
fn past_limit(breaker: Option<&Observed>) -> Sources {
    match breaker {
        Some(_) => Sources::Nothing,
        None => Sources::Some,
    }
}

// Returns the source at a place.
fn source_at(call: &Observed, fact: &Fact, at: usize) -> Sources {
    if is_join(call, fact) {
        Sources::Join(at)
    } else {
        Sources::Some
    }
}

// Returns the place behind the last call that was sent before the reader ended.
fn end_of(calls: &[Observed], reader: usize) -> usize
    requires within { reader < length calls.now }
    ensures within { result ≤ length calls.now }
{
    for at in reader + 1..calls.len() {
        if is_surely_before(&calls[reader], &calls[at]) {
            return at;
        }
    }
    calls.len()
}

// Checks whether a call may be a source of the fact for the reader, if this call broke it.
fn is_source(call: &Observed, fact: &Fact, reader: &Observed, breaker: Option<&Observed>) -> bool {
    if !may_make(&call.call, &call.shown, fact) || is_surely_before(reader, call) {
        return false;
    }
    match breaker {
        Some(breaker) => !is_surely_before(call, breaker),
        None => true,
    }
}

/// Checks whether a sure call that is surely before the reader surely leaves what excludes the fact.
pub(crate) fn breaks(call: &Observed, fact: &Fact, reader: &Observed) -> Result<bool, NoMemory> {
    if !call.sure || !is_surely_before(call, reader) {
        return Ok(false);
    }
    let left = left_by(&call.call, &call.shown)?;
    let beside = may_hold_beside(&left, fact);
    drop(left);
    Ok(!beside)
}
