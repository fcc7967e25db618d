//! What is surely overwritten before a call.

use crate::effects::surely_changes;
use crate::numbers::{at, small};
use crate::sessions::end_of;
use crate::sorted::Sorted;
use std::alloc::Global;
use zy_base::NoMemory;
use zy_refute::Observed;

// For each call the last sending of a change at its key that had ended before the call was sent: what
// ended before that moment is not there any more. It is 0 if there is none. The keys have numbers below
// `count`.
pub(crate) fn floors_of(
    alloc: Global,
    observed: &[Observed],
    keys: &[u32],
    count: usize,
    sorted: &Sorted,
) -> Result<Vec<u64>, NoMemory> {
    let mut last = Vec::from_elem(alloc, 0u64, count)?;
    match Vec::from_elem(alloc, 0u64, observed.len()) {
        Ok(floors) => {
            let mut floors = floors;
            find_floors(
                observed,
                keys,
                sorted,
                last.as_mut_slice(),
                floors.as_mut_slice(),
            );
            drop(last);
            Ok(floors)
        }
        Err(_) => {
            drop(last);
            Err(NoMemory)
        }
    }
}

// Finds them, with a list of the last sending at each key.
fn find_floors(
    observed: &[Observed],
    keys: &[u32],
    sorted: &Sorted,
    last: &mut [u64],
    floors: &mut [u64],
) {
    let mut ended = 0;
    for call in &sorted.by_sent {
        let Some(one) = observed.get(*call as usize) else {
            continue;
        };
        for _ in ended..sorted.by_end.len() {
            let other = at(sorted.by_end.as_slice(), small(ended));
            let Some(before) = observed.get(other as usize) else {
                break;
            };
            if one.sent < end_of(before) {
                break;
            }
            if surely_changes(before)
                && let Some(own) = last.get_mut(at(keys, other) as usize)
            {
                *own = before.sent.max(*own);
            }
            ended = ended.saturating_add(1);
        }
        let known = last.get(at(keys, *call) as usize).copied();
        if let Some(moment) = known
            && let Some(floor) = floors.get_mut(*call as usize)
        {
            *floor = moment;
        }
    }
}
