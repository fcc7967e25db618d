//! The steps at one place of a home: what is done with a block, its link and the pass.
ghost use Rattle.std.specs.Prelude.{◌≡◌, ◌≢◌, ◌<◌, ◌≤◌, ◌+◌, ◌^◌, ◌||◌, ℕ, false, OnOk, OnErr, IfOk, IfSome};
ghost use Rattle.std.specs.Prelude.{IfNone, Some, None, slice_get, is_err};
ghost use Rattle.zy_conn.specs.Hold.{HeldTo, IsRecorded};
ghost use Rattle.zy_conn.specs.Work.{mark_of};
ghost use Rattle.zy_home.specs.Link.{Link, SameLink, StandsOn, TakesIn, IsFor, conn_of};
ghost use Rattle.zy_home.specs.Offer.{WaitsFull};
ghost use Rattle.zy_home.specs.Idle.{due_mark};
ghost use Rattle.zy_home.specs.Own.{IsRising, is_end, item_conn};
ghost use Rattle.zy_home.specs.Home.{conns_in};
ghost use Rattle.zy_home.specs.Turn.{IsDue, IsSettled, IsPutBack};
ghost use Rattle.zy_home.specs.Receiving.{StaysIdle};

use crate::link::Link;
use mc_store::StoreTable;
use std::mem;
use zy_base::{Gate, NoMemory};
use zy_calls::Room;
use zy_conn::{Block, HoldEnd};
use zy_rx::Rx;
use zy_shuffle::{HomePass, Publishing, Ring};

// Returns the connection of an item; the end has none.
pub(crate) fn conn_in(item: &Rx) -> Option<u32>
    ensures value { result ≡ item_conn item.now }
{
    match item {
        Rx::Segment { conn, bytes: _ } => Some(*conn),
        Rx::Close { conn } => Some(*conn),
        Rx::End => None,
    }
}

// Checks whether the end was received, once this item is.
pub(crate) fn ended_by(ended: bool, item: &Rx) -> bool
    ensures value { result ≡ (ended || is_end item.now) }
{
    ended || matches!(item, Rx::End)
}

// Puts a block, or none, into a slot.
pub(crate) fn put(slot: &mut Option<Block>, block: Option<Block>)
    ensures value { slot.new ≡ block }
{
    drop(mem::replace(slot, block));
}

// Holds a block, which takes this room for its texts if it has none.
pub(crate) fn hold<G: Gate>(
    block: &mut Block,
    store: &StoreTable,
    gate: &G,
    core: u32,
    room: &mut Room,
) -> Result<HoldEnd, NoMemory>
    requires table { block.old.work.table ≡ store.now.id }
    requires core { core < block.old.cores }
    ensures end { IfOk result (HeldTo block.old.work block.new.work) }
    ensures holds { IsRecorded core block.old block.new }
    ensures table { block.new.work.table ≡ block.old.work.table }
    ensures cores { block.new.cores ≡ block.old.cores }
    ensures mark { mark_of block.new.work ≡ mark_of block.old.work }
    ensures more { block.old.work.finished ≤ block.new.work.finished }
    ensures limit { block.new.work.finished ≤ block.old.work.finished + 64 }
{
    block.take_room(room);
    block.hold(store, gate, core)
}

// Settles a block: it is published if it then has an event, and otherwise is put into its slot. `B`
// is what its connection was before. It notes a failed allocation in `refused`.
pub(crate) fn settle_at<B: Publishing>(
    ring: &Ring<Block>,
    pass: &mut HomePass<Block>,
    slot: &mut Option<Block>,
    link: &mut Link,
    room: &mut Room,
    place: u32,
    block: Block,
    refused: &mut bool,
) -> Result<(), NoMemory>
    requires table { pass.old.table ≡ ring.now.id }
    requires few { pass.old.count < 2 ^ 63 }
    requires live { refused.old ≡ false }
    requires due { IsDue pass.old place link.old block }
    ensures ok { OnOk result (IsSettled B.before place block link.new pass.old pass.new slot.new) }
    ensures err { OnErr result (IsPutBack pass.old pass.new slot.new) }
    ensures stands { OnOk result (StandsOn link.old link.new) }
    ensures same { SameLink link.old link.new }
    ensures refused { refused.new ≡ is_err result }
{
    let mut block = block;
    let settled = link.settle(&mut block);
    block.give_room(room);
    match settled {
        Ok(true) => {
            ring.publish_as::<B>(pass, place, block);
            put(slot, None);
            Ok(())
        }
        Ok(false) => {
            put(slot, Some(block));
            Ok(())
        }
        Err(e) => {
            put(slot, Some(block));
            *refused = true;
            Err(e)
        }
    }
}

// Cuts an item of the connection. If its block is away, the frames that wait are offered. Says
// whether its block is in the slot and may have got a frame, so that it is left to settle. It notes a
// failed allocation in `refused`.
#[inline(always)]
pub(crate) fn cut_at(
    slot: &Option<Block>,
    link: &mut Link,
    item: Rx,
    refused: &mut bool,
) -> Result<bool, NoMemory>
    requires own { IsFor (conn_of link.old) item }
    requires live { refused.old ≡ false }
    ensures takes { OnOk result (TakesIn item link.old link.new) }
    ensures away { OnOk result (slot.now ≡ None → WaitsFull link.new) }
    ensures idle { IfOk result (λ touched. touched ≡ false → StaysIdle slot.now link.old link.new) }
    ensures due { due_mark link.new ≡ due_mark link.old }
    ensures refused { refused.new ≡ is_err result }
{
    match link.receive(item) {
        Ok(got) => {
            if slot.is_some() {
                return Ok(got);
            }
            link.offer_waiting();
            Ok(false)
        }
        Err(e) => {
            *refused = true;
            Err(e)
        }
    }
}
