//! Calls on a shard, with keys of 16 bytes and values of 100.
ghost use Rattle.std.specs.Prelude.{◌<◌, ◌≤◌};

use crate::calls::{apply, get, set};
use mc_calls::Call;
use mc_shard::Shard;
use std::alloc::Global;
use zy_base::NoMemory;

// The key with the number 0; each has 16 digits.
const FIRST_KEY: u64 = 1_000_000_000_000_000;

/// Stores an item at each key.
pub fn fill(alloc: Global, shard: &mut Shard, keys: u64) -> Result<(), NoMemory>
    requires few { keys ≤ 1000000 }
{
    for number in 0..keys {
        apply(shard, 0, set(alloc, FIRST_KEY + number)?)?;
    }
    Ok(())
}

/// Makes `calls` calls on drawn keys, nine reads to one write.
pub fn mix(alloc: Global, shard: &mut Shard, keys: u64, calls: u64) -> Result<(), NoMemory>
    requires some { 0 < keys }
    requires few { keys ≤ 1000000 }
{
    let mut state = 2024u64;
    for turn in 0..calls {
        state = state
            .wrapping_mul(6_364_136_223_846_793_005)
            .wrapping_add(1);
        let number = (state >> 33) % keys;
        apply(shard, 0, call(alloc, turn, number)?)?;
    }
    Ok(())
}

// Returns a write at each tenth turn, and otherwise a read.
fn call(alloc: Global, turn: u64, number: u64) -> Result<Call, NoMemory>
    requires few { number < 1000000 }
{
    if turn % 10 == 0 {
        set(alloc, FIRST_KEY + number)
    } else {
        get(alloc, FIRST_KEY + number)
    }
}
