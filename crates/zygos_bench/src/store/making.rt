//! Calls on a shard, and by one pass: nine reads to one write, of 1,024 keys with values of
//! 100 bytes.
ghost use Rattle.std.specs.Prelude.{◌≡◌, ◌≤◌, ◌^◌, []};

use crate::calls::{apply, get, set};
use mc_calls::{Call, Tag};
use mc_shard::Shard;
use mc_store::{Pass, Root, StoreTable, Tried};
use std::alloc::Global;
use std::sync::Wait;
use std::thread;
use zy_base::NoMemory;

// Returns the key of a call.
fn key_of(number: u64) -> u64
    ensures few { result ≤ 1023 }
{
    number.wrapping_mul(6_364_136_223_846_793_005) >> 54
}

// Makes some call.
fn some_call(alloc: Global, number: u64) -> Result<Call, NoMemory> {
    let key = 1_000_000 + key_of(number);
    if number % 10 == 0 {
        set(alloc, key)
    } else {
        get(alloc, key)
    }
}

// Returns the tag of a call.
fn tag_of(conn: u32, index: u64) -> Tag
    ensures conn { result.conn ≡ conn }
{
    Tag {
        conn,
        index,
        part: 0,
    }
}

/// Makes `calls` calls on a shard.
pub(crate) fn shard_alone(alloc: Global, calls: u64) -> Result<(), NoMemory> {
    let mut shard = Shard::new(alloc, 0, 1);
    let made = apply_all(alloc, &mut shard, calls);
    drop(shard);
    made
}

// Makes `calls` calls on this shard.
fn apply_all(alloc: Global, shard: &mut Shard, calls: u64) -> Result<(), NoMemory> {
    for number in 0..calls {
        apply(shard, number, some_call(alloc, number)?)?;
    }
    Ok(())
}

/// Makes `calls` calls on a store of one shard.
pub(crate) fn pass_alone<R: Wait>(rt: &R, alloc: Global, calls: u64) -> Result<(), NoMemory>
    requires few { calls ≤ 2 ^ 32 }
{
    let (store, mut root) = StoreTable::new(alloc, 1)?;
    let made = call_alone(rt, alloc, &store, &mut root, calls);
    drop(root);
    drop(store);
    made
}

/// Makes `calls` calls on a new store, by one pass.
pub(crate) fn call_alone<R: Wait>(
    rt: &R,
    alloc: Global,
    store: &StoreTable,
    root: &mut Root,
    calls: u64,
) -> Result<(), NoMemory>
    requires table { root.old.table ≡ store.now.id }
    requires fresh { root.old.given ≡ [] }
    requires few { calls ≤ 2 ^ 32 }
{
    let pass = store.split(root, 0)?;
    make_calls(rt, alloc, store, pass, calls);
    Ok(())
}

/// Makes `calls` calls on the shards of their keys. A call that found its shard busy is made again.
pub(crate) fn make_calls<R: Wait>(
    rt: &R,
    alloc: Global,
    store: &StoreTable,
    mut pass: Pass,
    calls: u64,
)
    requires table { pass.table ≡ store.now.id }
    requires few { calls ≤ 2 ^ 32 }
{
    let shards = u64::from(store.shards());
    for _ in rt.forever() {
        let number = pass.count();
        if number >= calls {
            break;
        }
        let Ok(call) = some_call(alloc, number) else {
            continue;
        };
        let tag = tag_of(pass.conn(), number);
        let shard = (key_of(number) % shards) as u32;
        match store.make_call(&mut pass, tag, shard, call) {
            Ok(Tried::Made { reply, .. }) => drop(reply),
            Ok(Tried::Busy { call, .. }) => {
                drop(call);
                thread::yield_now();
            }
            Err((call, NoMemory)) => drop(call),
        }
    }
    drop(pass);
}
