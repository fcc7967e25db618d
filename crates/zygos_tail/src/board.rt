//! The gate on threads: a command spins there for its service time.
use crate::clock::monotonic;
use crate::load::Load;
use crate::notes::Notes;
use std::alloc::Global;
use std::sync::atomic::{AtomicU64, Ordering};
use std::time::Clock;
use zy_base::{Gate, NoMemory};

/// A gate that spins for a command's service time, and notes by place when it ended and on which
/// core.
#[derive(Drop)]
pub(crate) struct Board<'a, R> {
    rt: &'a R,
    load: Load,
    notes: Notes,
    away: AtomicU64,
}

impl<'a, R: Clock> Board<'a, R> {
    /// Makes a gate that was not passed yet, with these service times.
    pub(crate) fn new(
        rt: &'a R,
        alloc: Global,
        load: Load,
        services: Vec<u64>,
    ) -> Result<Board<'a, R>, NoMemory> {
        let notes = Notes::new(alloc, load, services)?;
        Ok(Board {
            rt,
            load,
            notes,
            away: AtomicU64::new(0),
        })
    }

    /// Returns what it noted.
    pub(crate) fn notes(&self) -> &Notes {
        &self.notes
    }

    /// Returns for how long commands were interrupted, in nanoseconds.
    pub(crate) fn away(&self) -> u64 {
        self.away.load(Ordering::SeqCst)
    }
}

impl<'a, R: Clock> Gate for Board<'a, R> {
    fn pass(&self, core: u32, conn: u32, index: u64) {
        let begin = monotonic(self.rt);
        let place = self.load.place_of(conn, index);
        let until = begin.saturating_add(self.notes.service_of(place));
        let spun = spin(self.rt, begin, until);
        self.notes.note(place, u64::from(core), spun.end);
        if spun.away > 0 {
            self.away.fetch_add(spun.away, Ordering::SeqCst);
        }
    }
}

/// What a thread that spun has seen.
#[derive(Clone, Copy)]
pub(crate) struct Spun {
    /// When it ended, in nanoseconds.
    pub(crate) end: u64,
    /// For how long the thread was interrupted, in nanoseconds.
    pub(crate) away: u64,
}

// A thread counts as interrupted when more nanoseconds than this pass between two looks at the
// clock.
const INTERRUPTED: u64 = 10_000;

/// Spins from this time until that one.
pub(crate) fn spin<R: Clock>(rt: &R, from: u64, until: u64) -> Spun {
    let mut last = from;
    let mut away = 0u64;
    for _ in 0..u64::MAX {
        if last >= until {
            break;
        }
        let now = monotonic(rt);
        let gap = now.saturating_sub(last);
        if gap > INTERRUPTED {
            away = away.saturating_add(gap);
        }
        last = now;
    }
    Spun { end: last, away }
}
