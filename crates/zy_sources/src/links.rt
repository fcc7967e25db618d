//! What is known of the calls before an order is looked for.

use crate::effects::found_another;
use crate::floors::floors_of;
use crate::keys::{Keys, keys_of};
use crate::looked::Looked;
use crate::numbers::{NONE, at, small, time_at};
use crate::overs::{Overs, overs_of};
use crate::reach::{Reached, Times, times_of};
use crate::sessions::are_of_one_session;
use crate::sorted::{Sorted, sorted_of};
use crate::sources::sources_of;
use std::alloc::Global;
use std::collections::BTreeSet;
use zy_base::{Blob, NoMemory};
use zy_refute::Observed;

/// The calls of a recording, and what is known of them.
#[derive(Clone, Copy)]
pub struct Calls<'a> {
    pub observed: &'a [Observed],
    pub links: &'a Links,
}

/// What is known of the calls before an order is looked for.
#[derive(Drop)]
pub struct Links {
    pub keys: Keys,
    pub sorted: Sorted,
    pub makers: Makers,
    pub times: Times,
}

/// Which call made what another one found.
#[derive(Drop)]
pub struct Makers {
    /// The call that made what a call found, if only one can have; for one that found an item with another
    /// unique, the call that made the item that it named.
    pub source: Vec<u32>,
    /// Whether it is known that another call found what a call made.
    pub seen: Vec<bool>,
    /// The changes that must be made before a call.
    pub overs: Overs,
}

/// Finds what is known of the calls. If `warm`, items may be there at first. The items of the keys in
/// `lasting` may be lost, and those of all keys if `forget`. May answer `NoMemory`.
pub fn links_of(
    alloc: Global,
    warm: bool,
    forget: bool,
    lasting: &BTreeSet<Blob>,
    observed: &[Observed],
) -> Result<Links, NoMemory> {
    let keys = keys_of(alloc, forget, lasting, observed)?;
    match sorted_of(alloc, observed) {
        Ok(sorted) => with_makers(alloc, warm, observed, keys, sorted),
        Err(refused) => {
            drop(keys);
            Err(refused)
        }
    }
}

// Adds which call made what another one found.
fn with_makers(
    alloc: Global,
    warm: bool,
    observed: &[Observed],
    keys: Keys,
    sorted: Sorted,
) -> Result<Links, NoMemory> {
    match makers_of(alloc, warm, observed, &keys, &sorted) {
        Ok(makers) => with_times(alloc, observed, keys, sorted, makers),
        Err(refused) => {
            drop(keys);
            drop(sorted);
            Err(refused)
        }
    }
}

// Adds between which moments calls can be made.
fn with_times(
    alloc: Global,
    observed: &[Observed],
    keys: Keys,
    sorted: Sorted,
    makers: Makers,
) -> Result<Links, NoMemory> {
    let reached = Reached {
        observed,
        source: &makers.source,
        over: &makers.overs.over,
        more_over: &makers.overs.more_over,
    };
    match times_of(alloc, reached, &sorted) {
        Ok(times) => Ok(Links {
            keys,
            sorted,
            makers,
            times,
        }),
        Err(refused) => {
            drop(keys);
            drop(sorted);
            drop(makers);
            Err(refused)
        }
    }
}

// Finds which call made what another one found.
fn makers_of(
    alloc: Global,
    warm: bool,
    observed: &[Observed],
    keys: &Keys,
    sorted: &Sorted,
) -> Result<Makers, NoMemory> {
    let source = found_sources(alloc, warm, observed, keys, sorted)?;
    match overs_of(alloc, observed, &keys.of, &source) {
        Ok(overs) => with_seen(alloc, observed, source, overs),
        Err(refused) => {
            drop(source);
            Err(refused)
        }
    }
}

// Adds whether another call found what a call made.
fn with_seen(
    alloc: Global,
    observed: &[Observed],
    source: Vec<u32>,
    overs: Overs,
) -> Result<Makers, NoMemory> {
    match seen_of(alloc, observed, &source) {
        Ok(seen) => Ok(Makers {
            source,
            seen,
            overs,
        }),
        Err(refused) => {
            drop(source);
            drop(overs);
            Err(refused)
        }
    }
}

// Finds the call that made what each one found.
fn found_sources(
    alloc: Global,
    warm: bool,
    observed: &[Observed],
    keys: &Keys,
    sorted: &Sorted,
) -> Result<Vec<u32>, NoMemory> {
    let floors = floors_of(alloc, observed, &keys.of, keys.first.len(), sorted)?;
    let looked = Looked {
        observed,
        keys,
        floors: &floors,
        by_end: &sorted.by_end,
        by_sent: &sorted.by_sent,
        warm,
        flushed: !sorted.flushes.is_empty(),
    };
    let source = sources_of(alloc, looked);
    drop(floors);
    source
}

// For each call whether it is known that another one found what it made.
fn seen_of(alloc: Global, observed: &[Observed], source: &[u32]) -> Result<Vec<bool>, NoMemory> {
    let mut seen = Vec::from_elem(alloc, false, observed.len())?;
    for call in 0..observed.len() {
        let maker = source_of(observed, source, small(call));
        if let Some(own) = seen.get_mut(maker as usize) {
            *own = true;
        }
    }
    Ok(seen)
}

impl<'a> Calls<'a> {
    /// Returns a call.
    pub fn get(self, call: u32) -> Option<&'a Observed> {
        self.observed.get(call as usize)
    }

    /// Returns the number of a call's key, or `NONE`.
    pub fn key_of(self, call: u32) -> u32 {
        at(self.links.keys.of.as_slice(), call)
    }

    /// Returns the call before a call in its session, or `NONE`.
    pub fn before(self, call: u32) -> u32 {
        call_before(self.observed, call)
    }

    /// Returns the call that made what a call found, or `NONE`.
    pub fn source_of(self, call: u32) -> u32 {
        source_of(self.observed, self.links.makers.source.as_slice(), call)
    }

    /// Returns the moment before which a call must be made.
    pub fn due(self, call: u32) -> u64 {
        time_at(self.links.times.due.as_slice(), call)
    }

    /// Returns the moment before which a call cannot be made.
    pub fn since(self, call: u32) -> u64 {
        time_at(self.links.times.since.as_slice(), call)
    }
}

// The call before a call in its session, or `NONE`.
pub(crate) fn call_before(observed: &[Observed], call: u32) -> u32 {
    let Some(before) = call.checked_sub(1) else {
        return NONE;
    };
    match (observed.get(before as usize), observed.get(call as usize)) {
        (Some(other), Some(one)) if are_of_one_session(other, one) => before,
        _ => NONE,
    }
}

// The call that made what a call found, or `NONE`.
pub(crate) fn source_of(observed: &[Observed], source: &[u32], call: u32) -> u32 {
    match observed.get(call as usize) {
        Some(one) if !found_another(one) => at(source, call),
        _ => NONE,
    }
}
