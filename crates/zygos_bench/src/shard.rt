//! Calls on one shard: how many keys it has, and how many calls are made.
ghost use Rattle.std.specs.Prelude.{◌<◌, ◌≤◌};

mod load;

use crate::clock::nanos;
use crate::done::Done;
use load::{fill, mix};
use mc_shard::Shard;
use std::alloc::Global;
use std::time::CpuClock;
use zy_base::NoMemory;

/// Times `calls` calls on `keys` keys, at most 1,000,000.
pub(crate) fn measured<R: CpuClock>(
    rt: &R,
    alloc: Global,
    keys: u64,
    calls: u64,
) -> Result<Done, NoMemory> {
    let keys = keys.max(1).min(1_000_000);
    let mut shard = Shard::new(alloc, 0, 1);
    let done = timed(rt, alloc, &mut shard, keys, calls);
    drop(shard);
    done
}

// Fills the shard, and times the calls.
fn timed<R: CpuClock>(
    rt: &R,
    alloc: Global,
    shard: &mut Shard,
    keys: u64,
    calls: u64,
) -> Result<Done, NoMemory>
    requires some { 0 < keys }
    requires few { keys ≤ 1000000 }
{
    fill(alloc, shard, keys)?;
    let start = nanos(rt);
    mix(alloc, shard, keys, calls)?;
    Ok(Done {
        count: calls,
        nanos: nanos(rt).saturating_sub(start),
    })
}
