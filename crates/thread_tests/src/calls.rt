//! Two threads that call one shard of a store, each with a pass of its own.
ghost use Rattle.std.specs.Prelude.{◌≡◌, ◌<◌, ◌≤◌, [], ◌∷◌, ℕ, true, false};
ghost use Rattle.zy_table.specs.Member.{is_in};
ghost use Rattle.mc_store.specs.Joined.{is_joined};
ghost use Rattle.mc_store.specs.Pass.{passed, rooted};
ghost use Rattle.mc_store.specs.View.{untraced};

use crate::judging::{judge, no_memory};
use mc_calls::{Call, Tag};
use mc_history::{Histories, History};
use mc_store::{Pass, Root, StoreTable};
use std::alloc::Global;
use std::process::Abort;
use std::sync::Wait;
use std::thread;
use std::thread::Threads;
use zy_base::Blob;

const CALLS: u64 = 1_000;

// Makes `CALLS` calls on the one shard. If the shard was busy, or an allocation failed, the call is
// tried again.
fn make_calls<R: Wait>(rt: &R, store: &StoreTable, pass: &mut Pass, call: &Call)
    requires table { pass.old.table ≡ store.now.id }
    requires one { store.now.shards ≡ 1 }
    ensures table { pass.new.table ≡ store.now.id }
    ensures conn { pass.new.conn ≡ pass.old.conn }
{
    let conn = pass.conn();
    for _ in rt.forever() {
        let index = pass.count();
        if index >= CALLS {
            break;
        }
        let tag = Tag {
            conn,
            index,
            part: 0,
        };
        let got = store.try_call(pass, tag, 0, call);
        drop(got);
        if pass.count() == index {
            thread::yield_now();
        }
    }
}

// Makes the calls of one thread.
fn call_on<R: Wait>(rt: &R, store: &StoreTable, mut pass: Pass, call: Call) -> Pass
    requires table { pass.table ≡ store.now.id }
    requires one { store.now.shards ≡ 1 }
    ensures table { result.table ≡ store.now.id }
    ensures conn { result.conn ≡ pass.conn }
{
    make_calls(rt, store, &mut pass, &call);
    drop(call);
    pass
}

// Makes the calls of two passes, on two threads.
fn call_on_two<R: Threads + Wait + Sync>(
    rt: &R,
    store: &StoreTable,
    passes: (Pass, Pass),
    calls: (Call, Call),
) -> (Pass, Pass)
    requires one { store.now.shards ≡ 1 }
    requires table { (passes.0.table ≡ store.now.id) × (passes.1.table ≡ store.now.id) }
    ensures one { (result.0.table ≡ store.now.id) × (result.0.conn ≡ passes.0.conn) }
    ensures two { (result.1.table ≡ store.now.id) × (result.1.conn ≡ passes.1.conn) }
{
    let (one, two) = passes;
    let (first, second) = calls;
    thread::join(
        rt,
        move || -> Pass
            requires { (one.table ≡ store.now.id) × (store.now.shards ≡ 1) }
            ensures table { result.table ≡ store.entry.now.id }
            ensures conn { result.conn ≡ one.conn }
        { call_on(rt, store, one, first) },
        move || -> Pass
            requires { (two.table ≡ store.now.id) × (store.now.shards ≡ 1) }
            ensures table { result.table ≡ store.entry.now.id }
            ensures conn { result.conn ≡ two.conn }
        { call_on(rt, store, two, second) },
    )
}

// Returns a get of a key.
fn get_of<R: Abort>(rt: &R, alloc: Global, key: &[u8]) -> Call {
    match Blob::copy_of(alloc, key) {
        Ok(key) => Call::Get { key },
        Err(_) => no_memory(rt),
    }
}

// Returns the pass of a connection.
fn pass_of<R: Abort>(rt: &R, store: &StoreTable, root: &mut Root, conn: u32) -> Pass
    requires table { root.old.table ≡ store.now.id }
    requires within { conn < 4096 }
    requires fresh { is_in conn root.old.given ≡ false }
    ensures value { result ≡ passed root.old.table conn [] untraced }
    ensures ok { root.new ≡ rooted root.old.table (conn ∷ root.old.given) root.old.joined }
{
    match store.split(root, conn) {
        Ok(pass) => pass,
        Err(_) => no_memory(rt),
    }
}

// Serves two threads, and joins their passes.
fn serve_two<R: Threads + Wait + Abort + Sync>(
    rt: &R,
    alloc: Global,
    store: &StoreTable,
    root: &mut Root,
)
    requires root { root.old ≡ rooted store.now.id [] [] }
    requires one { store.now.shards ≡ 1 }
    ensures table { root.new.table ≡ store.now.id }
    ensures all { (conn : ℕ) → is_in conn root.new.given ≡ true → is_joined conn root.new.joined ≡ true }
{
    let calls = (get_of(rt, alloc, b"a"), get_of(rt, alloc, b"b"));
    let one = pass_of(rt, store, root, 0);
    let two = pass_of(rt, store, root, 1);
    let (one, two) = call_on_two(rt, store, (one, two), calls);
    store.join(root, one);
    store.join(root, two);
}

// Checks whether all calls of both connections are in the history, each connection's in its order.
fn are_in_order(history: &History) -> bool {
    let mut next = [0u64; 2];
    for at in 0..history.len() {
        let tag = history.entry(at).tag();
        match next.get_mut(tag.conn as usize) {
            Some(index) if *index == tag.index => *index = index.wrapping_add(1),
            _ => return false,
        }
    }
    next[0] == CALLS && next[1] == CALLS
}

// Makes a store with `shards` shards, and its root.
fn new_store<R: Abort>(rt: &R, alloc: Global, shards: u32) -> (StoreTable, Root)
    requires some { 1 ≤ shards }
    requires few { shards ≤ 256 }
    ensures shards { result.0.shards ≡ shards }
    ensures root { result.1 ≡ rooted result.0.id [] [] }
{
    match StoreTable::new(alloc, shards) {
        Ok(made) => made,
        Err(_) => no_memory(rt),
    }
}

// Returns the histories of a store whose passes were joined.
fn histories_of<R: Abort>(rt: &R, store: StoreTable, root: Root) -> Histories
    requires table { root.table ≡ store.id }
    requires all { (conn : ℕ) → is_in conn root.given ≡ true → is_joined conn root.joined ≡ true }
{
    match store.close(root) {
        Ok(histories) => histories,
        Err(_) => no_memory(rt),
    }
}

#[test]
fn two_threads_make_their_calls_on_one_shard(rt: HostRuntime) {
    let alloc = rt.alloc();
    let (store, mut root) = new_store(&rt, alloc, 1);
    serve_two(&rt, alloc, &store, &mut root);
    let histories = histories_of(&rt, store, root);
    let is_all = histories.count() == 1 && are_in_order(histories.list(0));
    drop(histories);
    judge(&rt, is_all, "the history has other calls");
}
