//! Changes that are hidden: a session made one, and then found what another call made at the key.

use crate::effects::{found_another, surely_changes};
use crate::hashing::mixed;
use crate::numbers::{NONE, at, put, small};
use crate::sessions::are_of_one_session;
use crate::table::Table;
use std::alloc::Global;
use zy_base::NoMemory;
use zy_refute::Observed;

// No call: a change has it that must be made before another call, and is the last of those.
const LAST: u32 = NONE - 1;

/// The changes that must be made before others.
#[derive(Drop)]
pub struct Overs {
    /// For each call the first change that must be made before it, or `NONE`.
    pub over: Vec<u32>,
    /// For each of these changes the one after it.
    pub more_over: Vec<u32>,
}

// Finds the changes that must be made before others.
pub(crate) fn overs_of(
    alloc: Global,
    observed: &[Observed],
    keys: &[u32],
    source: &[u32],
) -> Result<Overs, NoMemory> {
    let mut overs = Overs {
        over: Vec::from_elem(alloc, NONE, observed.len())?,
        more_over: Vec::from_elem(alloc, NONE, observed.len())?,
    };
    match overs.find(alloc, observed, keys, source) {
        Ok(()) => Ok(overs),
        Err(refused) => {
            drop(overs);
            Err(refused)
        }
    }
}

impl Overs {
    // Finds them.
    fn find(
        &mut self,
        alloc: Global,
        observed: &[Observed],
        keys: &[u32],
        source: &[u32],
    ) -> Result<(), NoMemory> {
        let mut last = Table::new(alloc)?;
        let found = self.find_by(&mut last, observed, keys, source);
        drop(last);
        found
    }

    // The same, with a table of the last change of the session at a key, by both.
    fn find_by(
        &mut self,
        last: &mut Table,
        observed: &[Observed],
        keys: &[u32],
        source: &[u32],
    ) -> Result<(), NoMemory> {
        let mut session: u64 = 0;
        for call in 0..observed.len() {
            let one = &observed[call];
            if call == 0 || !are_of_one_session(&observed[call - 1], one) {
                session = session.saturating_add(1);
            }
            let hash = mixed(mixed(9, session), at(keys, small(call)) as u64);
            let change = last.get(hash);
            let found = at(source, small(call));
            if change != NONE && found != NONE && !found_another(one) && found != change {
                self.hide(observed, change, found);
            }
            if surely_changes(one) {
                last.put(hash, small(call))?;
            }
        }
        Ok(())
    }

    // A change must be made before a call.
    fn hide(&mut self, observed: &[Observed], change: u32, call: u32) {
        let known = at(self.more_over.as_slice(), change);
        let own = match (observed.get(change as usize), observed.get(call as usize)) {
            (Some(one), Some(other)) => are_of_one_session(one, other),
            _ => true,
        };
        if known == NONE && !own && at(self.over.as_slice(), call) != change {
            let next = at(self.over.as_slice(), call);
            let rest = if next == NONE { LAST } else { next };
            put(self.more_over.as_mut_slice(), change, rest);
            put(self.over.as_mut_slice(), call, change);
        }
    }
}
