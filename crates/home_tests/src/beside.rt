//! A home receives while another thread holds the block.
ghost use Rattle.std.specs.Prelude.{◌≡◌, ◌≤◌, false};
ghost use Rattle.zy_conn.specs.Block.{label_of};
ghost use Rattle.zy_conn.specs.Work.{mark_of};
ghost use Rattle.zy_home.specs.Home.{SameFor};

use crate::home_parts::{Setup, first_end, set_up};
use crate::receiving::{Item, receive, settle};
use crate::sure::sure;
use mc_store::StoreTable;
use std::alloc::Global;
use std::process::Abort;
use std::thread;
use std::thread::Threads;
use zy_base::Ungated;
use zy_conn::Block;
use zy_home::Home;
use zy_shuffle::{Claim, Ring};

const COMMAND: [Item; 1] = [Item::Text(0, 1, b"version\r\n")];

// The number of commands that are received while the block is held.
const TIMES: u32 = 500;

// Lets the home receive commands.
fn receive_often(rt: &impl Abort, alloc: Global, ring: &Ring<Block>, mut home: Home) -> Home
    requires table { home.pass.table ≡ ring.now.id }
    requires few { home.pass.count ≤ 64 }
    requires live { home.refused ≡ false }
    ensures same { SameFor 32000 home result }
    ensures live { result.refused ≡ false }
{
    for _time in 0..TIMES {
        receive(rt, alloc, ring, &mut home, &COMMAND);
    }
    home
}

// Holds the block again and again, until half of the commands are finished.
fn hold_often(rt: &impl Abort, store: &StoreTable, mut block: Block) -> Block
    requires table { block.work.table ≡ store.now.id }
    requires cores { block.cores ≡ 2 }
    ensures table { result.work.table ≡ block.work.table }
    ensures cores { result.cores ≡ block.cores }
    ensures mark { mark_of result.work ≡ mark_of block.work }
{
    for _ in 0..100_000 {
        if block.finished() >= 250 {
            break;
        }
        sure(rt, block.hold(store, &Ungated, 1));
        thread::yield_now();
    }
    block
}

// Has one thread receive for a home, while another holds the block of one of its connections.
fn receive_beside<R: Threads + Abort + Sync>(
    rt: &R,
    alloc: Global,
    ring: &Ring<Block>,
    store: &StoreTable,
    home: Home,
    block: Block,
) -> (Home, Block)
    requires table { home.pass.table ≡ ring.now.id }
    requires few { home.pass.count ≤ 64 }
    requires live { home.refused ≡ false }
    requires store { block.work.table ≡ store.now.id }
    requires cores { block.cores ≡ 2 }
    ensures same { SameFor 32000 home result.0 }
    ensures live { result.0.refused ≡ false }
    ensures block { result.1.work.table ≡ block.work.table }
    ensures held { result.1.cores ≡ block.cores }
    ensures mark { mark_of result.1.work ≡ mark_of block.work }
{
    thread::join(
        rt,
        move || -> Home
            requires table { home.pass.table ≡ ring.now.id }
            requires few { home.pass.count ≤ 64 }
            requires live { home.refused ≡ false }
            ensures same { SameFor 32000 home result }
            ensures live { result.refused ≡ false }
        { receive_often(rt, alloc, ring, home) },
        move || -> Block
            requires store { block.work.table ≡ store.now.id }
            requires cores { block.cores ≡ 2 }
            ensures table { result.work.table ≡ block.work.table }
            ensures cores { result.cores ≡ block.cores }
            ensures mark { mark_of result.work ≡ mark_of block.work }
        { hold_often(rt, store, block) },
    )
}

// Claims the block for the other core, and has the home receive while it is held.
fn steal_beside<R: Threads + Abort + Sync>(rt: &R, alloc: Global, setup: Setup) -> Setup
    requires home { setup.home.pass.table ≡ setup.ring.id }
    requires few { setup.home.pass.count ≤ 64 }
    requires live { setup.home.refused ≡ false }
    requires label { setup.thief.label ≡ label_of setup.store.id 2 }
    requires own { setup.home.pass.label ≡ label_of setup.store.id 2 }
    requires cores { setup.home.cores ≡ 2 }
    requires thief { setup.thief.table ≡ setup.ring.id }
    ensures home { result.home.pass.table ≡ result.ring.id }
    ensures few { result.home.pass.count ≤ 32064 }
    ensures live { result.home.refused ≡ false }
    ensures label { result.home.pass.label ≡ label_of result.store.id 2 }
    ensures cores { result.home.cores ≡ 2 }
{
    let Setup {
        store,
        ring,
        home,
        mut thief,
    } = setup;
    let Claim::Took { place, block } = ring.claim(&mut thief) else {
        panic!(rt; "no block");
    };
    let (home, block) = receive_beside(rt, alloc, &ring, &store, home, block);
    ring.give_back(&mut thief, place, block);
    Setup {
        store,
        ring,
        home,
        thief,
    }
}

#[test]
fn frames_reach_a_block_while_it_is_held(rt: HostRuntime) {
    let alloc = rt.alloc();
    let mut setup = set_up(&rt, alloc);
    receive(&rt, alloc, &setup.ring, &mut setup.home, &COMMAND);
    let mut setup = steal_beside(&rt, alloc, setup);
    receive(&rt, alloc, &setup.ring, &mut setup.home, &[Item::End]);
    settle(&rt, &mut setup);
    let (output, ends) = first_end(&rt, setup);
    let finished = output.finished();
    let is_one = ends.is_empty();
    drop(output);
    drop(ends);
    assert!(rt; is_one && finished == 1 + TIMES as u64);
}
