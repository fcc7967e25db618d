//! The store: one shard alone, one pass alone, and threads.
ghost use Rattle.std.specs.Prelude.{◌≤◌, ◌^◌};

mod making;
mod threads;

use crate::clock::since;
use crate::done::Done;
use std::alloc::Global;
use std::sync::Wait;
use std::thread::Threads;
use std::time::{Clock, Instant};
use zy_base::NoMemory;

/// Which calls are made.
#[derive(Clone, Copy)]
pub(crate) enum Part {
    /// Those of a shard alone.
    Shard,
    /// Those of one pass on one shard.
    Pass,
    /// Those of threads on 16 shards.
    Threads,
}

/// Times `calls` calls, of each thread if there are threads: one, two or four.
pub(crate) fn measured<R: Threads + Wait + Clock + Sync>(
    rt: &R,
    alloc: Global,
    part: Part,
    calls: u64,
    threads: u64,
) -> Result<Done, NoMemory> {
    let calls = calls.min(1 << 32);
    let Ok(start) = Instant::now(rt) else {
        return Err(NoMemory);
    };
    match part {
        Part::Shard => making::shard_alone(alloc, calls)?,
        Part::Pass => making::pass_alone(rt, alloc, calls)?,
        Part::Threads => threads::many(rt, alloc, threads, calls)?,
    }
    Ok(Done {
        count: calls,
        nanos: since(rt, start),
    })
}
