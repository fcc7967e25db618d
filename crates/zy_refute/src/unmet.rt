//! The rule `unmet`: a sure call needs what no call can have made.
ghost use Rattle.std.specs.Prelude.{◌<◌, length, IfOk, IsTrue};
ghost use Rattle.zy_refute.specs.Courses.{HaveNoOrder};
ghost use Rattle.zy_refute.specs.Unmet.{IsRefutation};

use crate::candidates::{Chance, may_be_unmet};
use crate::meeting::is_never_met;
use crate::observed::Observed;
use crate::store::Store;
use mc_allows::need_of;
use std::alloc::Global;
use zy_base::NoMemory;

// Calls whose need was joined to a rest without a source are checked until so many calls were gone
// through.
const WORK_LIMIT: usize = 4_194_304;

/// Finds a sure call whose need no call can have made, so that the calls have no order. Of several
/// it is the one that ended first. The calls are to be in the order in which they were sent;
/// otherwise less is found.
pub fn find_unmet(
    alloc: Global,
    store: Store,
    calls: &[Observed],
) -> Result<Option<usize>, NoMemory>
    ensures none { IfOk result (λ found. IsRefutation store calls.now found) }
{
    let mut found = None;
    let mut left = WORK_LIMIT;
    for at in 0..calls.len() {
        found = with_call(alloc, store, calls, &mut left, found, at)?;
    }
    Ok(found)
}

// Returns the call at a place if its need is never met and it ended before the one that was found,
// and otherwise that one.
fn with_call(
    alloc: Global,
    store: Store,
    calls: &[Observed],
    left: &mut usize,
    found: Option<usize>,
    at: usize,
) -> Result<Option<usize>, NoMemory>
    requires at { at < length calls.now }
    requires found { IsRefutation store calls.now found }
    ensures none { IfOk result (λ found. IsRefutation store calls.now found) }
{
    if !is_first(calls, found, &calls[at]) {
        return Ok(found);
    }
    let chance = may_be_unmet(alloc, calls, at)?;
    if !is_worth(chance, calls.len(), left) {
        return Ok(found);
    }
    if !is_unmet(alloc, store, calls, at)? {
        return Ok(found);
    }
    Ok(Some(at))
}

// Checks whether a call may be unmet, and is worth going through this number of calls.
fn is_worth(chance: Chance, calls: usize, left: &mut usize) -> bool {
    match chance {
        Chance::Not => false,
        Chance::Bare => true,
        Chance::Joined => {
            let enough = *left > 0;
            *left = left.saturating_sub(calls);
            enough
        }
    }
}

/// Checks whether a call ended before the one that was found, if there is one.
pub(crate) fn is_first(calls: &[Observed], found: Option<usize>, call: &Observed) -> bool {
    match found {
        Some(found) => match calls.get(found) {
            Some(other) => ended_first(call.ended, other.ended),
            None => true,
        },
        None => true,
    }
}

fn ended_first(one: Option<u64>, other: Option<u64>) -> bool {
    match (one, other) {
        (Some(one), Some(other)) => one < other,
        (Some(_), None) => true,
        _ => false,
    }
}

/// Checks that a sure call needs what no call can have made.
pub fn is_unmet(
    alloc: Global,
    store: Store,
    calls: &[Observed],
    reader: usize,
) -> Result<bool, NoMemory>
    requires within { reader < length calls.now }
    ensures none { IfOk result (λ is. IsTrue is → HaveNoOrder store calls.now) }
{
    let call = &calls[reader];
    if !call.sure {
        return Ok(false);
    }
    let need = need_of(&call.call, &call.shown)?;
    let met = is_never_met(alloc, store, calls, &need, reader);
    drop(need);
    met
}
