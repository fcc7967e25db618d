//! The shuffle queue, and a queue under a lock beside it.
mod locked;
mod ringed;

use crate::clock::since;
use crate::done::Done;
use std::alloc::Global;
use std::sync::Wait;
use std::thread::Threads;
use std::time::{Clock, Instant};
use zy_base::NoMemory;

/// The queue that is timed.
#[derive(Clone, Copy, Drop)]
pub(crate) enum Queue {
    Ring,
    Lock,
}

// A run on a queue.
#[derive(Clone, Copy, Drop)]
struct Run {
    queue: Queue,
    thieves: u64,
    rounds: u64,
}

/// Times `rounds` rounds with `thieves` thieves.
pub(crate) fn measured<R: Threads + Wait + Clock + Sync>(
    rt: &R,
    alloc: Global,
    queue: Queue,
    thieves: u64,
    rounds: u64,
) -> Result<Done, NoMemory> {
    let run = Run {
        queue,
        thieves,
        rounds,
    };
    let Ok(start) = Instant::now(rt) else {
        return Err(NoMemory);
    };
    work(rt, alloc, &run)?;
    Ok(Done {
        count: rounds,
        nanos: since(rt, start),
    })
}

// Carries the run out.
fn work<R: Threads + Wait + Sync>(rt: &R, alloc: Global, run: &Run) -> Result<(), NoMemory> {
    let rounds = run.rounds.min(1 << 40);
    match (run.queue, run.thieves) {
        (Queue::Ring, 0) => ringed::alone(alloc, rounds),
        (Queue::Ring, thieves) => ringed::robbed(rt, alloc, thieves, rounds),
        (Queue::Lock, 0) => locked::alone(rt, alloc, rounds),
        (Queue::Lock, thieves) => locked::robbed(rt, alloc, thieves, rounds),
    }
}
