//! One thread offers frames and calls a shard, while another holds the block.
ghost use Rattle.std.specs.Prelude.{◌≡◌};

use crate::block_parts::{BlockParts, block_parts, offer_text};
use crate::sure::sure;
use mc_calls::{Call, Tag, shard_of};
use mc_store::{Pass, StoreTable};
use std::alloc::Global;
use std::process::Abort;
use std::sync::Wait;
use std::sync::atomic::{AtomicBool, Ordering};
use std::thread;
use std::thread::Threads;
use zy_base::{Blob, Ungated};
use zy_calls::Output;
use zy_conn::{Block, EventInlet, HoldEnd};

// Three items, which are stored without an answer.
const STORED: &[u8] =
    b"set a 0 0 1 noreply\r\n1\r\nset b 0 0 1 noreply\r\n2\r\nset c 0 0 1 noreply\r\n3\r\n";

// The reply to a get of all three.
const FOUND: &[u8] = b"VALUE a 0 1\r\n1\r\nVALUE b 0 1\r\n2\r\nVALUE c 0 1\r\n3\r\nEND\r\n";

// Gets the item of key b.
fn get_once(rt: &impl Abort, alloc: Global, store: &StoreTable, pass: &mut Pass)
    requires table { pass.old.table ≡ store.now.id }
    ensures table { pass.new.table ≡ store.now.id }
{
    assert!(rt; pass.count() < 1 << 40);
    let tag = Tag {
        conn: pass.conn(),
        index: 0,
        part: 0,
    };
    let key = sure(rt, Blob::copy_of(alloc, b"b"));
    let shard = shard_of(b"b", store.shards());
    let call = Call::Get { key };
    let got = sure(rt, store.try_call(pass, tag, shard, &call));
    drop(call);
    drop(got);
}

// Offers frames, and calls the shard of key b, until the other thread is done.
fn offer_until<R: Wait + Abort>(
    rt: &R,
    alloc: Global,
    store: &StoreTable,
    mut pass: Pass,
    mut inlet: EventInlet,
    done: &AtomicBool,
) -> EventInlet
    requires table { pass.table ≡ store.now.id }
    ensures ring { result.ring ≡ inlet.ring }
{
    for _ in rt.forever() {
        if done.load(Ordering::SeqCst) {
            break;
        }
        offer_text(rt, alloc, &mut inlet, b"get a b c\r\n");
        get_once(rt, alloc, store, &mut pass);
    }
    drop(pass);
    inlet
}

// The number of commands that were answered, and the number of texts that are not the reply to a
// get of all three items.
#[derive(Clone, Copy)]
struct Sent {
    count: u64,
    wrong: u32,
}

// Holds the block until a shard was busy and 1,000 commands are finished, and looks at what it sent.
fn hold_until<R: Wait + Abort>(
    rt: &R,
    alloc: Global,
    store: &StoreTable,
    mut block: Block,
    done: &AtomicBool,
) -> (Block, Sent)
    requires table { block.work.table ≡ store.now.id }
    requires cores { block.cores ≡ 64 }
    ensures ring { result.0.work.ring ≡ block.work.ring }
{
    let mut output = Output::new(alloc, block.conn());
    let mut busy = false;
    for _ in rt.forever() {
        if let HoldEnd::Busy { .. } = sure(rt, block.hold(store, &Ungated, 1)) {
            busy = true;
        }
        sure(rt, block.send_to(&mut output));
        if busy && block.finished() >= 1_000 {
            break;
        }
    }
    done.store(true, Ordering::SeqCst);
    let sent = sent_in(&output);
    drop(output);
    (block, sent)
}

// Counts the texts of this output.
fn sent_in(output: &Output) -> Sent {
    let mut wrong = 0u32;
    for text in output.bytes().chunks(FOUND.len()) {
        if text != FOUND {
            wrong = wrong.saturating_add(1);
        }
    }
    Sent {
        count: output.count(),
        wrong,
    }
}

// Has one thread offer frames and call a shard, while another holds the block.
fn hold_beside<R: Threads + Wait + Abort + Sync>(
    rt: &R,
    alloc: Global,
    store: &StoreTable,
    other: Pass,
    block: Block,
    inlet: EventInlet,
) -> (EventInlet, (Block, Sent))
    requires other { other.table ≡ store.now.id }
    requires table { block.work.table ≡ store.now.id }
    requires cores { block.cores ≡ 64 }
    ensures inlet { result.0.ring ≡ inlet.ring }
    ensures block { result.1.0.work.ring ≡ block.work.ring }
{
    let done = AtomicBool::new(false);
    let flag = &done;
    thread::join(
        rt,
        move || -> EventInlet
            requires table { other.table ≡ store.now.id }
            ensures ring { result.ring ≡ inlet.ring }
        { offer_until(rt, alloc, store, other, inlet, flag) },
        move || -> (Block, Sent)
            requires table { block.work.table ≡ store.now.id }
            requires cores { block.cores ≡ 64 }
            ensures ring { result.0.work.ring ≡ block.work.ring }
        { hold_until(rt, alloc, store, block, flag) },
    )
}

#[test]
fn frames_are_offered_while_a_block_is_held(rt: HostRuntime) {
    let alloc = rt.alloc();
    let BlockParts {
        store,
        mut root,
        block,
        mut inlet,
    } = block_parts(&rt, alloc);
    let other = sure(&rt, store.split(&mut root, 1));
    offer_text(&rt, alloc, &mut inlet, STORED);
    let (mut inlet, (mut block, sent)) = hold_beside(&rt, alloc, &store, other, block, inlet);
    block.meet(&mut inlet);
    drop(inlet);
    drop(block);
    drop(root);
    drop(store);
    assert!(rt; sent.count >= 1_000 && sent.wrong == 0);
}
