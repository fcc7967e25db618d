//! A shard only, which gets the calls of the commands.
use crate::calls::apply;
use crate::clock::nanos;
use crate::conn::Rounds;
use crate::conn::load::call_of;
use mc_calls::Call;
use mc_shard::Shard;
use std::alloc::Global;
use std::time::CpuClock;
use zy_base::{NoMemory, Queue};

/// Returns the nanoseconds of these rounds of calls.
pub(crate) fn alone<R: CpuClock>(rt: &R, alloc: Global, rounds: Rounds) -> Result<u64, NoMemory> {
    let mut shard = Shard::new(alloc, 0, 1);
    let spent = make_rounds(rt, alloc, &mut shard, rounds);
    drop(shard);
    spent
}

// Returns the nanoseconds of these rounds, on this shard.
fn make_rounds<R: CpuClock>(
    rt: &R,
    alloc: Global,
    shard: &mut Shard,
    rounds: Rounds,
) -> Result<u64, NoMemory> {
    let size = rounds.size;
    let mut spent = 0u64;
    for round in 0..rounds.count {
        let mut calls = Queue::new(alloc);
        let made = make_round(rt, alloc, shard, &mut calls, round.wrapping_mul(size), size);
        drop(calls);
        spent = spent.wrapping_add(made?);
    }
    Ok(spent)
}

// Returns the nanoseconds of one round: the calls of `size` commands from this one on.
fn make_round<R: CpuClock>(
    rt: &R,
    alloc: Global,
    shard: &mut Shard,
    calls: &mut Queue<Call>,
    first: u64,
    size: u64,
) -> Result<u64, NoMemory> {
    add_calls(alloc, calls, first, size)?;
    let start = nanos(rt);
    make_all(shard, calls)?;
    Ok(nanos(rt).saturating_sub(start))
}

// Appends the calls.
fn add_calls(
    alloc: Global,
    calls: &mut Queue<Call>,
    first: u64,
    size: u64,
) -> Result<(), NoMemory> {
    for at in 0..size {
        let call = call_of(alloc, first.wrapping_add(at))?;
        if let Err((call, e)) = calls.push(call) {
            drop(call);
            return Err(e);
        }
    }
    Ok(())
}

// Makes calls.
fn make_all(shard: &mut Shard, calls: &mut Queue<Call>) -> Result<(), NoMemory> {
    while let Some(call) = calls.next() {
        apply(shard, 0, call)?;
    }
    Ok(())
}
