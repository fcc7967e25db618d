//! Between which moments calls can be made, as far as their sources and sessions tell.

use crate::links::{call_before, source_of};
use crate::numbers::{NONE, at, small, time_at};
use crate::sessions::end_of;
use crate::sorted::Sorted;
use std::alloc::Global;
use zy_base::NoMemory;
use zy_refute::Observed;

/// The calls, and which must come before which.
#[derive(Clone, Copy)]
pub(crate) struct Reached<'a> {
    pub(crate) observed: &'a [Observed],
    pub(crate) source: &'a [u32],
    pub(crate) over: &'a [u32],
    pub(crate) more_over: &'a [u32],
}

// How often the moments are passed on.
const TURNS: usize = 3;

/// Between which moments calls can be made.
#[derive(Drop)]
pub struct Times {
    /// The moment before which a call must be made: the least of its end and of those of the calls that must
    /// come after it.
    pub due: Vec<u64>,
    /// The moment before which a call cannot be made: the last of its sending and of those of the calls that
    /// must come before it.
    pub since: Vec<u64>,
    /// The last of those moments, of the calls that need what a call made, and what these made.
    pub span: Vec<u64>,
}

// Finds between which moments calls can be made.
pub(crate) fn times_of(
    alloc: Global,
    reached: Reached<'_>,
    sorted: &Sorted,
) -> Result<Times, NoMemory> {
    let count = reached.observed.len();
    let mut times = Times {
        due: Vec::from_elem(alloc, 0u64, count)?,
        since: Vec::from_elem(alloc, 0u64, count)?,
        span: Vec::from_elem(alloc, 0u64, count)?,
    };
    for call in 0..count {
        let one = &reached.observed[call];
        set(times.due.as_mut_slice(), call, end_of(one));
        set(times.since.as_mut_slice(), call, one.sent);
    }
    raise_sinces(reached, times.since.as_mut_slice(), &sorted.by_sent);
    for call in 0..count {
        let moment = time_at(&times.since, small(call));
        set(times.span.as_mut_slice(), call, moment);
    }
    raise_spans(reached, times.span.as_mut_slice(), &sorted.by_sent);
    match lower_dues(alloc, reached, times.due.as_mut_slice(), &sorted.by_end) {
        Ok(()) => Ok(times),
        Err(refused) => {
            drop(times);
            Err(refused)
        }
    }
}

// Sets the moment at an offset.
fn set(list: &mut [u64], offset: usize, moment: u64) {
    if let Some(own) = list.get_mut(offset) {
        *own = moment;
    }
}

// Lowers the moments before which calls must be made to those of the calls that must come after them.
fn lower_dues(
    alloc: Global,
    reached: Reached<'_>,
    due: &mut [u64],
    by_end: &[u32],
) -> Result<(), NoMemory> {
    let mut open = Vec::new(alloc);
    let lowered = lower_all(reached, due, &mut open, by_end);
    drop(open);
    lowered
}

// The same, with a list for the calls that are lowered next.
fn lower_all(
    reached: Reached<'_>,
    due: &mut [u64],
    open: &mut Vec<u32>,
    by_end: &[u32],
) -> Result<(), NoMemory> {
    for call in by_end {
        let end = time_at(due, *call);
        open.push(*call)?;
        for _ in 0..usize::MAX {
            let Some(later) = open.pop() else {
                break;
            };
            lower(reached, due, open, later, end)?;
        }
    }
    Ok(())
}

// Those that must come before a call are due before this moment.
fn lower(
    reached: Reached<'_>,
    due: &mut [u64],
    open: &mut Vec<u32>,
    call: u32,
    end: u64,
) -> Result<(), NoMemory> {
    let source = source_of(reached.observed, reached.source, call);
    let mut change = at(reached.over, call);
    for before in [source, call_before(reached.observed, call)] {
        if let Some(least) = due.get_mut(before as usize)
            && end < *least
        {
            *least = end;
            open.push(before)?;
        }
    }
    for _ in 0..reached.observed.len() {
        if change == NONE {
            break;
        }
        if let Some(least) = due.get_mut(change as usize)
            && end < *least
        {
            *least = end;
            open.push(change)?;
        }
        change = at(reached.more_over, change);
    }
    Ok(())
}

// Raises the moments before which calls cannot be made to those of the calls that must come before them.
fn raise_sinces(reached: Reached<'_>, since: &mut [u64], by_sent: &[u32]) {
    for _ in 0..TURNS {
        for call in by_sent {
            let source = source_of(reached.observed, reached.source, *call);
            let before = call_before(reached.observed, *call);
            raise(since, *call, source);
            raise(since, *call, before);
        }
    }
}

// Raises the moment of a call to that of one that must come before it.
fn raise(since: &mut [u64], call: u32, before: u32) {
    let Some(moment) = since.get(before as usize).copied() else {
        return;
    };
    if let Some(own) = since.get_mut(call as usize) {
        *own = moment.max(*own);
    }
}

// Raises the moment of each call to those of the calls that need what it made, and what these made.
fn raise_spans(reached: Reached<'_>, span: &mut [u64], by_sent: &[u32]) {
    for back in 0..by_sent.len() {
        let call = at(by_sent, small(by_sent.len() - 1 - back));
        let last = time_at(span, call);
        let mut later = call;
        for _ in 0..span.len() {
            let own = source_of(reached.observed, reached.source, later);
            match span.get_mut(own as usize) {
                Some(moment) if *moment < last => *moment = last,
                _ => break,
            }
            later = own;
        }
    }
}
