//! A block that is held again and again, each time with some frames in its ring.
ghost use Rattle.std.specs.Prelude.{◌≡◌, []};

use crate::clock::nanos;
use crate::conn::Rounds;
use crate::conn::load::text_of;
use mc_store::{Root, StoreTable};
use std::alloc::Global;
use std::time::CpuClock;
use zy_base::{NoMemory, Ungated};
use zy_calls::Output;
use zy_conn::{Block, EventInlet};
use zy_frame::{Framer, Frames};

/// Returns the nanoseconds of a hold for each of these rounds, on a store of 16 shards.
pub(crate) fn held<R: CpuClock>(rt: &R, alloc: Global, rounds: Rounds) -> Result<u64, NoMemory> {
    let (store, mut root) = StoreTable::new(alloc, 16)?;
    let spent = held_on(rt, alloc, &store, &mut root, rounds);
    drop(root);
    drop(store);
    spent
}

// Returns the nanoseconds of these holds, on this store.
fn held_on<R: CpuClock>(
    rt: &R,
    alloc: Global,
    store: &StoreTable,
    root: &mut Root,
    rounds: Rounds,
) -> Result<u64, NoMemory>
    requires table { root.old.table ≡ store.now.id }
    requires fresh { root.old.given ≡ [] }
{
    let pass = store.split(root, 0)?;
    match Block::new(alloc, 0, pass) {
        Ok((mut block, mut inlet)) => {
            let spent = hold_all(rt, alloc, store, &mut block, &mut inlet, rounds);
            drop(block);
            drop(inlet);
            spent
        }
        Err((pass, e)) => {
            drop(pass);
            Err(e)
        }
    }
}

// Offers frames, and holds the block, in each round.
fn hold_all<R: CpuClock>(
    rt: &R,
    alloc: Global,
    store: &StoreTable,
    block: &mut Block,
    inlet: &mut EventInlet,
    rounds: Rounds,
) -> Result<u64, NoMemory>
    requires table { block.old.work.table ≡ store.now.id }
    requires cores { block.old.cores ≡ 64 }
{
    let mut spent = 0u64;
    for round in 0..rounds.count {
        offer(alloc, inlet, round.wrapping_mul(rounds.size), rounds.size)?;
        spent = spent.wrapping_add(hold_once(rt, alloc, store, block)?);
    }
    Ok(spent)
}

// Offers the frames of `size` commands from this one on.
fn offer(alloc: Global, inlet: &mut EventInlet, first: u64, size: u64) -> Result<(), NoMemory> {
    let text = text_of(alloc, first, size)?;
    let mut framer = Framer::new(alloc);
    let mut frames = Frames::new(alloc);
    let fed = framer.feed(&text, &mut frames);
    drop(text);
    drop(framer);
    let offered = offer_all(inlet, &mut frames);
    drop(frames);
    fed?;
    offered
}

// Offers all frames.
fn offer_all(inlet: &mut EventInlet, frames: &mut Frames) -> Result<(), NoMemory> {
    while let Some(frame) = frames.next() {
        if let Some(frame) = inlet.offer(frame) {
            drop(frame);
            return Err(NoMemory);
        }
    }
    Ok(())
}

// Returns the nanoseconds of one hold. What it sent is dropped.
fn hold_once<R: CpuClock>(
    rt: &R,
    alloc: Global,
    store: &StoreTable,
    block: &mut Block,
) -> Result<u64, NoMemory>
    requires table { block.old.work.table ≡ store.now.id }
    requires cores { block.old.cores ≡ 64 }
    ensures table { block.new.work.table ≡ block.old.work.table }
    ensures cores { block.new.cores ≡ block.old.cores }
{
    let start = nanos(rt);
    let held = block.hold(store, &Ungated, 0);
    let end = nanos(rt);
    let mut output = Output::new(alloc, block.conn());
    let sent = block.send_to(&mut output);
    drop(output);
    sent?;
    match held {
        Ok(_) => Ok(end.saturating_sub(start)),
        Err(e) => Err(e),
    }
}
