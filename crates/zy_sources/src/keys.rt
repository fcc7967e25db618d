//! Numbers of keys.

use crate::hashing::key_hash;
use crate::numbers::{NONE, put, small};
use crate::table::Table;
use std::alloc::Global;
use std::collections::BTreeSet;
use zy_base::{Blob, NoMemory};
use zy_refute::Observed;

/// The keys of calls, by numbers from 0.
#[derive(Drop)]
pub struct Keys {
    /// The key of each call, or `NONE`.
    pub of: Vec<u32>,
    /// The first call at each key.
    pub first: Vec<u32>,
    /// Whether the item of each key may be lost between any two calls.
    pub forget: Vec<bool>,
}

// Numbers the keys. The items of those in `lasting` may be lost, and those of all if `all`.
pub(crate) fn keys_of(
    alloc: Global,
    all: bool,
    lasting: &BTreeSet<Blob>,
    observed: &[Observed],
) -> Result<Keys, NoMemory> {
    let mut keys = Keys {
        of: Vec::from_elem(alloc, NONE, observed.len())?,
        first: Vec::new(alloc),
        forget: Vec::new(alloc),
    };
    match keys.number(alloc, all, lasting, observed) {
        Ok(()) => Ok(keys),
        Err(refused) => {
            drop(keys);
            Err(refused)
        }
    }
}

impl Keys {
    // Numbers the keys.
    fn number(
        &mut self,
        alloc: Global,
        all: bool,
        lasting: &BTreeSet<Blob>,
        observed: &[Observed],
    ) -> Result<(), NoMemory> {
        let mut numbers = Table::new(alloc)?;
        let numbered = self.number_by(&mut numbers, all, lasting, observed);
        drop(numbers);
        numbered
    }

    // The same, with a table of the numbers.
    fn number_by(
        &mut self,
        numbers: &mut Table,
        all: bool,
        lasting: &BTreeSet<Blob>,
        observed: &[Observed],
    ) -> Result<(), NoMemory> {
        for call in 0..observed.len() {
            let Some(key) = observed[call].call.key() else {
                continue;
            };
            let hash = key_hash(key.bytes());
            let mut number = numbers.get(hash);
            if number == NONE {
                number = small(self.first.len());
                numbers.put(hash, number)?;
                self.first.push(small(call))?;
                self.forget.push(all || lasting.contains(key))?;
            }
            put(self.of.as_mut_slice(), small(call), number);
        }
        Ok(())
    }
}
