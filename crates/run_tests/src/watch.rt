//! A gate that counts, and can hold commands.
use crate::sure::sure;
use mc_calls::Hold;
use std::alloc::Global;
use std::process::Abort;
use std::sync::atomic::{AtomicBool, AtomicU64, Ordering};
use zy_base::Gate;

// The cores and connections that are counted one by one; all others share one place after theirs.
const CORES: u32 = 2;

const CONNS: u32 = 7;

const PLACES: usize = 15;

// The largest number of turns for which a command is held.
const TURNS: u32 = 20_000_000;

/// Counts how often it was passed, by core and connection. A gate that holds commands holds each
/// whose index is a multiple of 64, until one of connection 0 and one of another connection were
/// held at once, or for `TURNS` turns.
#[derive(Drop)]
pub(crate) struct Watch {
    counts: Vec<AtomicU64>,
    holds: bool,
    first: AtomicBool,
    second: AtomicBool,
    met: AtomicBool,
}

// Returns the place where a core and a connection are counted.
fn place_of(core: u32, conn: u32) -> usize {
    if core < CORES && conn < CONNS {
        (core * CONNS + conn) as usize
    } else {
        PLACES - 1
    }
}

impl Watch {
    /// Makes a gate that was not passed yet.
    pub(crate) fn new(rt: &impl Abort, alloc: Global, holds: bool) -> Watch {
        let mut counts = Vec::new(alloc);
        for _ in 0..PLACES {
            sure(rt, counts.push(AtomicU64::new(0)));
        }
        Watch {
            counts,
            holds,
            first: AtomicBool::new(false),
            second: AtomicBool::new(false),
            met: AtomicBool::new(false),
        }
    }

    // Returns how often it was passed for a place.
    fn count(&self, place: usize) -> u64 {
        match self.counts.get(place) {
            Some(count) => count.load(Ordering::SeqCst),
            None => 0,
        }
    }

    /// Returns how often it was passed.
    pub(crate) fn passed(&self) -> u64 {
        let mut sum = 0u64;
        for place in 0..PLACES {
            sum = sum.saturating_add(self.count(place));
        }
        sum
    }

    /// Checks whether it was passed, for each core and connection, as often as these holds say.
    pub(crate) fn is_told_by(&self, holds: &[Hold]) -> bool {
        for place in 0..PLACES {
            if self.count(place) != held_at(holds, place) {
                return false;
            }
        }
        true
    }

    /// Checks whether commands of two connections were held at once.
    pub(crate) fn has_met(&self) -> bool {
        self.met.load(Ordering::SeqCst)
    }

    // Holds a command of this connection.
    fn hold_of(&self, conn: u32) {
        if conn == 0 {
            self.hold(&self.first, &self.second);
        } else {
            self.hold(&self.second, &self.first);
        }
    }

    fn hold(&self, own: &AtomicBool, other: &AtomicBool) {
        own.store(true, Ordering::SeqCst);
        for _ in 0..TURNS {
            if self.met.load(Ordering::SeqCst) {
                break;
            }
            if other.load(Ordering::SeqCst) {
                self.met.store(true, Ordering::SeqCst);
            }
        }
        own.store(false, Ordering::SeqCst);
    }
}

// Returns the number of commands that holds count at a place.
fn held_at(holds: &[Hold], place: usize) -> u64 {
    let mut sum = 0u64;
    for hold in holds {
        if place_of(hold.core, hold.conn) == place {
            sum = sum.saturating_add(u64::from(hold.count));
        }
    }
    sum
}

impl Gate for Watch {
    fn pass(&self, core: u32, conn: u32, index: u64) {
        if let Some(count) = self.counts.get(place_of(core, conn)) {
            count.fetch_add(1, Ordering::SeqCst);
        }
        if self.holds && index % 64 == 0 {
            self.hold_of(conn);
        }
    }
}
