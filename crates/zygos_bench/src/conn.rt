//! What a command costs: for a shard only, for the holds of a block, and for a home.
ghost use Rattle.std.specs.Prelude.{◌≤◌, ◌^◌};

mod holding;
mod homing;
mod load;
mod shard;
mod starting;

use crate::done::Done;
use std::alloc::Global;
use std::time::CpuClock;
use zy_base::NoMemory;

/// What executes the commands.
#[derive(Clone, Copy)]
pub(crate) enum Part {
    /// A shard only.
    Shard,
    /// The holds of a block.
    Block,
    /// A home with 200 connections.
    Home,
}

/// What is timed: this number of rounds, of `size` commands for each connection.
#[derive(Clone, Copy)]
pub(crate) struct Rounds {
    pub(crate) count: u64,
    pub(crate) size: u64,
}

/// Times `count` rounds, each of 200 times `size` commands; `size` counts as 64 if it is greater.
pub(crate) fn measured<R: CpuClock>(
    rt: &R,
    alloc: Global,
    part: Part,
    count: u64,
    size: u64,
) -> Result<Done, NoMemory> {
    let rounds = Rounds {
        count: count.min(1 << 20),
        size: size.min(64),
    };
    let spent = work(rt, alloc, part, rounds)?;
    Ok(Done {
        count: rounds.count * (rounds.size * 200),
        nanos: spent,
    })
}

// Returns the nanoseconds that these rounds take, each of 200 times `size` commands.
fn work<R: CpuClock>(rt: &R, alloc: Global, part: Part, rounds: Rounds) -> Result<u64, NoMemory>
    requires rounds { rounds.count ≤ 2 ^ 20 }
    requires size { rounds.size ≤ 64 }
{
    let single = Rounds {
        count: rounds.count * 200,
        size: rounds.size,
    };
    match part {
        Part::Shard => shard::alone(rt, alloc, single),
        Part::Block => holding::held(rt, alloc, single),
        Part::Home => starting::homed(rt, alloc, rounds),
    }
}
