//! A home of 200 connections, each of which gets a segment in turn.
ghost use Rattle.std.specs.Prelude.{◌≡◌, ◌≤◌, ◌^◌, false, OnOk};
ghost use Rattle.zy_conn.specs.Block.{label_of};
ghost use Rattle.zy_home.specs.Home.{SameFor};

use crate::clock::nanos;
use crate::conn::Rounds;
use crate::conn::load::text_of;
use mc_store::StoreTable;
use std::alloc::Global;
use std::time::CpuClock;
use zy_base::{NoMemory, Ungated};
use zy_conn::Block;
use zy_home::{Home, Own};
use zy_rx::{Inlet, Outlet, Rx};
use zy_shuffle::Ring;

/// The connections of the home.
pub(crate) const CONNECTIONS: u32 = 200;

// How often the home receives in a round: 64 items each time.
const TIMES: u32 = 4;

/// The two ends of the home's receive ring.
#[derive(Drop)]
pub(crate) struct Ends {
    pub(crate) inlet: Inlet,
    pub(crate) outlet: Outlet,
}

/// Times these rounds: each connection gets a segment, and then the home serves them all.
pub(crate) fn serve_rounds<R: CpuClock>(
    rt: &R,
    alloc: Global,
    ring: &Ring<Block>,
    store: &StoreTable,
    home: &mut Home,
    ends: &mut Ends,
    rounds: Rounds,
) -> Result<u64, NoMemory>
    requires rounds { rounds.count ≤ 2 ^ 20 }
    requires table { home.old.pass.table ≡ ring.now.id }
    requires label { home.old.pass.label ≡ label_of store.now.id home.old.cores }
    requires live { home.old.refused ≡ false }
    requires count { home.old.pass.count ≡ 0 }
{
    let mut spent = 0u64;
    for round in 0..rounds.count {
        offer_all(alloc, &mut ends.inlet, round, rounds.size)?;
        let nanos = serve_items(rt, ring, store, home, &mut ends.outlet)?;
        spent = spent.wrapping_add(nanos);
    }
    Ok(spent)
}

// Offers a segment of `size` commands for each connection.
fn offer_all(alloc: Global, inlet: &mut Inlet, round: u64, size: u64) -> Result<(), NoMemory> {
    for conn in 0..CONNECTIONS {
        let part = round
            .wrapping_mul(CONNECTIONS as u64)
            .wrapping_add(conn as u64);
        let bytes = text_of(alloc, part.wrapping_mul(size), size)?;
        drop(inlet.offer(Rx::Segment { conn, bytes }));
    }
    Ok(())
}

// Returns the nanoseconds that the home takes to receive the items of a round and to serve them.
fn serve_items<R: CpuClock>(
    rt: &R,
    ring: &Ring<Block>,
    store: &StoreTable,
    home: &mut Home,
    outlet: &mut Outlet,
) -> Result<u64, NoMemory>
    requires table { home.old.pass.table ≡ ring.now.id }
    requires label { home.old.pass.label ≡ label_of store.now.id home.old.cores }
    requires live { home.old.refused ≡ false }
    requires few { home.old.pass.count ≤ 2 ^ 30 }
    ensures same { SameFor 456 home.old home.new }
    ensures live { OnOk result (home.new.refused ≡ false) }
{
    let begin = nanos(rt);
    receive_all(ring, home, outlet)?;
    own_all(ring, store, home)?;
    Ok(nanos(rt).saturating_sub(begin))
}

// Lets the home receive what the outlet knows.
fn receive_all(ring: &Ring<Block>, home: &mut Home, outlet: &mut Outlet) -> Result<(), NoMemory>
    requires table { home.old.pass.table ≡ ring.now.id }
    requires live { home.old.refused ≡ false }
    requires few { home.old.pass.count ≤ 2 ^ 60 }
    ensures same { SameFor 256 home.old home.new }
    ensures live { OnOk result (home.new.refused ≡ false) }
{
    for _time in 0..TIMES {
        if let Err(e) = home.receive_all(ring, outlet) {
            return Err(e);
        }
    }
    Ok(())
}

// Lets the home claim, hold and settle each block that was published.
fn own_all(ring: &Ring<Block>, store: &StoreTable, home: &mut Home) -> Result<(), NoMemory>
    requires table { home.old.pass.table ≡ ring.now.id }
    requires label { home.old.pass.label ≡ label_of store.now.id home.old.cores }
    requires live { home.old.refused ≡ false }
    requires few { home.old.pass.count ≤ 2 ^ 60 }
    ensures same { SameFor 200 home.old home.new }
    ensures live { OnOk result (home.new.refused ≡ false) }
{
    for _turn in 0..CONNECTIONS {
        match home.own(ring, store, &Ungated) {
            Ok(Own::Took { .. }) => {}
            Ok(_) => break,
            Err(e) => return Err(e),
        }
    }
    Ok(())
}
