//! A home of two connections over a store, with a pass of another core on its ring.
ghost use Rattle.std.specs.Prelude.{◌≡◌, ◌<◌, [], ◌∷◌, ◌++◌, false};
ghost use Rattle.zy_table.specs.Member.{is_in};
ghost use Rattle.mc_store.specs.Pass.{passed};
ghost use Rattle.mc_store.specs.View.{untraced};
ghost use Rattle.zy_shuffle.specs.Pass.{HasAll, newly_held};
ghost use Rattle.zy_conn.specs.Work.{work_of_pass, idle};
ghost use Rattle.zy_conn.specs.Block.{blocked, label_of};
ghost use Rattle.zy_home.specs.Parts.{AreParts};

use crate::sure::sure;
use mc_store::{Root, StoreTable};
use std::alloc::Global;
use std::marker::Brand;
use std::process::Abort;
use zy_calls::Output;
use zy_conn::{Block, EventInlet};
use zy_home::{Blocks, Home, HomeParts, Inlets};
use zy_shuffle::{CorePass, HomePass, Label, Ring};

/// The home, the pass of the other core, and what both work on.
#[derive(Drop)]
pub(crate) struct Setup {
    pub(crate) store: StoreTable,
    pub(crate) ring: Ring<Block>,
    pub(crate) home: Home,
    pub(crate) thief: CorePass<Block>,
}

// Makes a ring of two places with the label of the store and two cores.
fn ring_of<L: Label>(
    rt: &impl Abort,
    alloc: Global,
    store: &StoreTable,
) -> (Ring<Block>, HomePass<Block>)
    requires label { L.label ≡ label_of store.now.id 2 }
    ensures pass { result.1 ≡ newly_held result.0.id (label_of store.now.id 2) 2 }
    ensures count { result.0.id.slots ≡ 2 }
    ensures hand { HasAll 2 result.1.hand }
{
    let (ring, pass) = sure(rt, Ring::<Block>::new::<L>(alloc, 2));
    let _places = ring.places();
    (ring, pass)
}

// Makes the block of a connection, with its inlet.
fn block_of(
    rt: &impl Abort,
    alloc: Global,
    store: &StoreTable,
    root: &mut Root,
    conn: u32,
) -> (Block, EventInlet)
    requires table { root.old.table ≡ store.now.id }
    requires within { conn < 4096 }
    requires fresh { is_in conn root.old.given ≡ false }
    ensures block { result.0 ≡ blocked
        (work_of_pass (passed store.now.id conn [] untraced) result.1.ring [] [] idle 0 0 []) 2 [] }
    ensures inlet { result.1.sent ≡ [] }
    ensures root { (root.new.table ≡ store.now.id) × (root.new.given ≡ conn ∷ root.old.given) }
{
    let pass = sure(rt, store.split(root, conn));
    sure(rt, Block::among(alloc, conn, 2, pass))
}

// Appends a block and its inlet.
fn push_both(rt: &impl Abort, parts: &mut HomeParts, block: Block, inlet: EventInlet)
    ensures pass { parts.new.pass ≡ parts.old.pass }
    ensures blocks { parts.new.blocks ≡ parts.old.blocks ++ block ∷ [] }
    ensures inlets { parts.new.inlets ≡ parts.old.inlets ++ inlet ∷ [] }
{
    sure(rt, parts.blocks.push(block));
    sure(rt, parts.inlets.push(inlet));
}

// Makes the parts of a home of the connections 0 and 2.
fn parts_of(
    rt: &impl Abort,
    alloc: Global,
    store: &StoreTable,
    root: &mut Root,
    pass: HomePass<Block>,
) -> HomeParts
    requires table { (root.old.table ≡ store.now.id) × (root.old.given ≡ []) }
    requires label { pass.label ≡ label_of store.now.id 2 }
    requires places { (pass.table.slots ≡ 2) × HasAll 2 pass.hand }
    ensures parts { AreParts 0 2 3 result }
    ensures pass { result.pass ≡ pass }
{
    let (first, inlet) = block_of(rt, alloc, store, root, 0);
    let (second, other) = block_of(rt, alloc, store, root, 2);
    let mut parts = HomeParts {
        pass,
        blocks: Blocks::new(alloc),
        inlets: Inlets::new(alloc),
    };
    push_both(rt, &mut parts, first, inlet);
    push_both(rt, &mut parts, second, other);
    parts
}

/// Makes the home of the first of two cores, with two connections, on a store of 16 shards.
pub(crate) fn set_up(rt: &impl Abort, alloc: Global) -> Setup
    ensures home { result.home.pass.table ≡ result.ring.id }
    ensures count { result.home.pass.count ≡ 0 }
    ensures live { result.home.refused ≡ false }
    ensures cores { result.home.cores ≡ 2 }
    ensures label { result.home.pass.label ≡ label_of result.store.id 2 }
    ensures thief { (result.thief.table ≡ result.ring.id) × (result.thief.label ≡ label_of result.store.id 2) }
{
    let (store, mut root) = sure(rt, StoreTable::new(alloc, 16));
    let (ring, mut pass) = ring_of::<Brand>(rt, alloc, &store);
    let thief = sure(rt, ring.split(&mut pass));
    let parts = parts_of(rt, alloc, &store, &mut root, pass);
    drop(root);
    let home = sure(rt, Home::new(alloc, 0, 2, 3, parts));
    Setup {
        store,
        ring,
        home,
        thief,
    }
}

/// Returns the output of the first connection, with the ends of its sessions.
pub(crate) fn first_end(rt: &impl Abort, setup: Setup) -> (Output, Vec<u64>) {
    let Setup {
        store,
        ring,
        home,
        thief,
    } = setup;
    let (pass, blocks, mut ends) = home.into_outputs();
    let Some(end) = ends.next() else {
        panic!(rt; "no connection");
    };
    drop(ends);
    drop(blocks);
    drop(pass);
    drop(thief);
    drop(ring);
    drop(store);
    end
}
