//! How long a thread that found nothing waits before it looks again.

use crate::round::Round;
use std::{hint, thread};

// How many times it looks again at once.
const LOOKS: u32 = 16;

// How long it spins each time after these, and how many times before it yields. A thread that yields
// can lose its processor for a whole slice of time, also to a program of the lowest priority.
const SPIN: u32 = 64;

const SPINS: u32 = 32;

// How long it spins after a round that found a shard busy, and how many times before it yields, since
// the thread that has the shard may need this processor to go on.
const BUSY_SPIN: u32 = 16;

const BUSY_SPINS: u32 = 8;

/// How often in a row a thread found nothing and looked again at once, how often it spun since it
/// last yielded or found something, and how often it spun for a busy shard since it yielded for one
/// or rested.
#[derive(Drop)]
pub struct Patience {
    looks: u32,
    spins: u32,
    busy: u32,
}

impl Patience {
    /// Makes the patience of a thread that has just found something.
    pub fn new() -> Patience {
        Patience {
            looks: 0,
            spins: 0,
            busy: 0,
        }
    }

    /// Waits for a little after a round that found nothing, and longer the more such rounds there
    /// were in a row. After one that found a shard busy it spins, and every ninth such time it
    /// yields. A thread that was just rung begins anew, so it is not the next one that yields.
    pub fn wait_after(&mut self, round: Round) {
        match round {
            Round::Idle => self.wait(),
            Round::Busy => {
                self.begin_again();
                self.wait_for_shard();
            }
            Round::Worked => self.begin_again(),
            Round::Rested => {
                self.begin_again();
                self.busy = 0;
            }
        }
    }

    // Begins again, since something was found.
    fn begin_again(&mut self) {
        self.looks = 0;
        self.spins = 0;
    }

    // Waits, since once more nothing was found.
    fn wait(&mut self) {
        if self.looks < LOOKS {
            self.looks += 1;
        } else if self.spins < SPINS {
            self.spins += 1;
            spin_for(SPIN);
        } else {
            self.spins = 0;
            thread::yield_now();
        }
    }

    // Waits, since once more a shard was found busy.
    fn wait_for_shard(&mut self) {
        if self.busy < BUSY_SPINS {
            self.busy += 1;
            spin_for(BUSY_SPIN);
        } else {
            self.busy = 0;
            thread::yield_now();
        }
    }
}

// Spins `times` times.
fn spin_for(times: u32) {
    for _ in 0..times {
        hint::spin_loop();
    }
}
