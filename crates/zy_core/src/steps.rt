//! The steps of a turn at home: items are received, blocks are collected, and one is claimed.
ghost use Rattle.std.specs.Prelude.{◌≡◌, ◌<◌, ◌^◌, true, false, OnOk, IfOk, is_err};
ghost use Rattle.zy_conn.specs.Block.{label_of};
ghost use Rattle.zy_home.specs.Home.{HomeStands, StandsHome, SameFor, is_settled};
ghost use Rattle.zy_core.specs.Turn.{CollectsAll};
ghost use Rattle.zy_core.specs.Step.{HasHomeSteps};

use mc_store::StoreTable;
use zy_base::{Gate, NoMemory};
use zy_conn::Block;
use zy_home::{Home, Own};
use zy_rx::Outlet;
use zy_shuffle::Ring;

// The result of the steps at home: whether an item was received, whether a block was collected, and
// the answer of the claim.
#[derive(Drop)]
pub(crate) struct AtHome {
    pub(crate) received: bool,
    pub(crate) collected: bool,
    pub(crate) own: Own,
}

// Makes the steps at home, in their order.
pub(crate) fn serve_home<G: Gate>(
    home: &mut Home,
    outlet: &mut Outlet,
    ring: &Ring<Block>,
    store: &StoreTable,
    gate: &G,
) -> Result<AtHome, NoMemory>
    requires table { home.old.pass.table ≡ ring.now.id }
    requires few { home.old.pass.count < 2 ^ 61 }
    requires live { home.old.refused ≡ false }
    requires store { home.old.pass.label ≡ label_of store.now.id home.old.cores }
    ensures value { IfOk result (HasHomeSteps home.old outlet.old home.new outlet.new) }
    ensures stands { OnOk result (HomeStands home.old outlet.old.taken → HomeStands home.new outlet.new.taken) }
    ensures same { SameFor 4161 home.old home.new }
    ensures still { is_settled home.old ≡ true → is_settled home.new ≡ true }
    ensures refused { home.new.refused ≡ is_err result }
    ensures ring { outlet.new.ring ≡ outlet.old.ring }
{
    // The call tells the prover that the places are the slots of the ring's table, at most 4096.
    let _places = ring.places();
    let received = home.receive_all(ring, outlet)? > 0;
    let collected = collect_all(home, ring)?;
    let own = home.own(ring, store, gate)?;
    Ok(AtHome {
        received,
        collected,
        own,
    })
}

// Collects and settles blocks until there is none, at most one for each place of the home. Returns
// whether there was one.
fn collect_all(home: &mut Home, ring: &Ring<Block>) -> Result<bool, NoMemory>
    requires table { home.old.pass.table ≡ ring.now.id }
    requires few { home.old.pass.count < 2 ^ 62 }
    requires live { home.old.refused ≡ false }
    ensures value { IfOk result (CollectsAll home.old.pass.table.slots home.old home.new) }
    ensures stands { OnOk result (StandsHome home.old home.new) }
    ensures same { SameFor 4096 home.old home.new × (home.new.ended ≡ home.old.ended) }
    ensures still { is_settled home.old ≡ true → is_settled home.new ≡ true }
    ensures refused { home.new.refused ≡ is_err result }
{
    let places = ring.places();
    if !home.collect(ring)? {
        return Ok(false);
    }
    for _ in 1..places {
        if !home.collect(ring)? {
            return Ok(true);
        }
    }
    Ok(true)
}
