//! Threads that call one store of 16 shards.
ghost use Rattle.std.specs.Prelude.{◌≡◌, ◌≤◌, ◌^◌, []};

use crate::store::making::make_calls;
use mc_store::{Pass, Root, StoreTable};
use std::alloc::Global;
use std::sync::Wait;
use std::thread;
use std::thread::Threads;
use zy_base::NoMemory;

/// Lets one, two or four threads make `calls` calls each.
pub(crate) fn many<R: Threads + Wait + Sync>(
    rt: &R,
    alloc: Global,
    count: u64,
    calls: u64,
) -> Result<(), NoMemory>
    requires few { calls ≤ 2 ^ 32 }
{
    let (store, mut root) = StoreTable::new(alloc, 16)?;
    let made = on_threads(rt, alloc, &store, &mut root, count, calls);
    drop(root);
    drop(store);
    made
}

// Lets threads make these calls on this new store.
fn on_threads<R: Threads + Wait + Sync>(
    rt: &R,
    alloc: Global,
    store: &StoreTable,
    root: &mut Root,
    count: u64,
    calls: u64,
) -> Result<(), NoMemory>
    requires table { root.old.table ≡ store.now.id }
    requires fresh { root.old.given ≡ [] }
    requires few { calls ≤ 2 ^ 32 }
{
    let one = store.split(root, 0)?;
    let two = store.split(root, 1)?;
    let three = store.split(root, 2)?;
    let four = store.split(root, 3)?;
    match count {
        1 => make_calls(rt, alloc, store, one, calls),
        2 => on_two(rt, alloc, store, one, two, calls),
        _ => on_four(rt, alloc, store, (one, two), (three, four), calls),
    }
    Ok(())
}

fn on_two<R: Threads + Wait + Sync>(
    rt: &R,
    alloc: Global,
    store: &StoreTable,
    one: Pass,
    two: Pass,
    calls: u64,
)
    requires one { one.table ≡ store.now.id }
    requires two { two.table ≡ store.now.id }
    requires few { calls ≤ 2 ^ 32 }
{
    thread::join(
        rt,
        move ||
            requires { (one.table ≡ store.now.id) × (calls ≤ 2 ^ 32) }
        { make_calls(rt, alloc, store, one, calls) },
        move ||
            requires { (two.table ≡ store.now.id) × (calls ≤ 2 ^ 32) }
        { make_calls(rt, alloc, store, two, calls) },
    );
}

fn on_four<R: Threads + Wait + Sync>(
    rt: &R,
    alloc: Global,
    store: &StoreTable,
    low: (Pass, Pass),
    high: (Pass, Pass),
    calls: u64,
)
    requires low { (low.0.table ≡ store.now.id) × (low.1.table ≡ store.now.id) }
    requires high { (high.0.table ≡ store.now.id) × (high.1.table ≡ store.now.id) }
    requires few { calls ≤ 2 ^ 32 }
{
    thread::join(
        rt,
        move ||
            requires { (low.0.table ≡ store.now.id) × (low.1.table ≡ store.now.id) × (calls ≤ 2 ^ 32) }
        { on_two(rt, alloc, store, low.0, low.1, calls) },
        move ||
            requires { (high.0.table ≡ store.now.id) × (high.1.table ≡ store.now.id) × (calls ≤ 2 ^ 32) }
        { on_two(rt, alloc, store, high.0, high.1, calls) },
    );
}
