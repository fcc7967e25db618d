//! Two queues under one lock: the places that are ready, and those that were given back.
use std::alloc::Global;
use std::collections::VecDeque;
use std::sync::atomic::{AtomicBool, Ordering};
use std::sync::{Mutex, Wait};
use std::thread;
use std::thread::Threads;
use zy_base::NoMemory;

const PLACES: u32 = 64;

#[derive(Drop)]
struct Queues {
    ready: VecDeque<u32>,
    back: VecDeque<u32>,
}

impl Queues {
    // Queues with room for all places, all of which are ready.
    fn new(alloc: Global) -> Result<Queues, NoMemory> {
        let Ok(mut ready) = VecDeque::with_capacity(alloc, PLACES as usize) else {
            return Err(NoMemory);
        };
        let Ok(back) = VecDeque::with_capacity(alloc, PLACES as usize) else {
            return Err(NoMemory);
        };
        for place in 0..PLACES {
            let _ = ready.push_back(place);
        }
        Ok(Queues { ready, back })
    }
}

// Publishes a place and claims it, `rounds` times.
pub(crate) fn alone<R: Wait>(rt: &R, alloc: Global, rounds: u64) -> Result<(), NoMemory> {
    let queues = Mutex::new(Queues::new(alloc)?);
    let mut place = 0;
    for _ in 0..rounds {
        let _ = queues.lock(rt).ready.push_back(place);
        place = queues.lock(rt).ready.pop_front().unwrap_or(0);
    }
    Ok(())
}

// Publishes each place that comes back, `rounds` times, while `thieves` thieves claim.
pub(crate) fn robbed<R: Threads + Wait + Sync>(
    rt: &R,
    alloc: Global,
    thieves: u64,
    rounds: u64,
) -> Result<(), NoMemory> {
    let queues = Mutex::new(Queues::new(alloc)?);
    let stop = AtomicBool::new(false);
    let (shared, ended) = (&queues, &stop);
    thread::join(
        rt,
        move || tend(rt, shared, rounds, ended),
        move || rob_all(rt, shared, thieves, ended),
    );
    Ok(())
}

// Does the work of the home.
fn tend<R: Wait>(rt: &R, queues: &Mutex<Queues>, rounds: u64, stop: &AtomicBool) {
    let mut done = 0u64;
    for _ in rt.forever() {
        if done >= rounds {
            break;
        }
        if publish_again(rt, queues) {
            done = done.wrapping_add(1);
        } else {
            thread::yield_now();
        }
    }
    stop.store(true, Ordering::SeqCst);
}

// Checks whether a place came back, which is then ready again.
fn publish_again<R: Wait>(rt: &R, queues: &Mutex<Queues>) -> bool {
    let mut queues = queues.lock(rt);
    match queues.back.pop_front() {
        Some(place) => queues.ready.push_back(place).is_ok(),
        None => false,
    }
}

// Lets `thieves` thieves steal, at most three.
fn rob_all<R: Threads + Wait + Sync>(
    rt: &R,
    queues: &Mutex<Queues>,
    thieves: u64,
    stop: &AtomicBool,
) {
    match thieves {
        1 => rob(rt, queues, stop),
        2 => rob_both(rt, queues, stop),
        _ => {
            thread::join(
                rt,
                move || rob(rt, queues, stop),
                move || rob_both(rt, queues, stop),
            );
        }
    }
}

// Lets two thieves steal.
fn rob_both<R: Threads + Wait + Sync>(rt: &R, queues: &Mutex<Queues>, stop: &AtomicBool) {
    thread::join(
        rt,
        move || rob(rt, queues, stop),
        move || rob(rt, queues, stop),
    );
}

// Claims and gives back as a thief, until the home has ended and nothing is left.
fn rob<R: Wait>(rt: &R, queues: &Mutex<Queues>, stop: &AtomicBool) {
    for _ in rt.forever() {
        let claimed = queues.lock(rt).ready.pop_front();
        match claimed {
            Some(place) => {
                let _ = queues.lock(rt).back.push_back(place);
            }
            None => {
                if stop.load(Ordering::SeqCst) {
                    break;
                }
                thread::yield_now();
            }
        }
    }
}
