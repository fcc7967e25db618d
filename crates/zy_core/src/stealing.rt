//! The last step of a turn: a block is stolen, held, and given back.
ghost use Rattle.std.specs.Prelude.{◌≡◌, ◌+◌, ◌%◌, ◌^◌, length, OnOk, IfOk};
ghost use Rattle.zy_conn.specs.Block.{label_of};
ghost use Rattle.zy_steal.specs.Steal.{ArePasses, AreIdle, seats_of};
ghost use Rattle.zy_core.specs.Steal.{StealsOver};

use mc_store::StoreTable;
use zy_base::{Gate, NoMemory};
use zy_conn::{Block, HoldEnd};
use zy_steal::{Looks, Passes, Rings, StolenBlock, Victims};

// Steals once. A block that was taken is held by this core and given back, even if an allocation
// fails in its hold; the answer is the end of the hold. If none was taken, the looks at the other
// cores replace those in the table.
pub(crate) fn steal_once<G: Gate>(
    victims: &mut Victims,
    passes: &mut Passes<Block>,
    rings: &Rings<Block>,
    store: &StoreTable,
    gate: &G,
    core: u32,
    looks: &mut Looks,
) -> Result<Option<HoldEnd>, NoMemory>
    requires within { ArePasses rings.now passes.old }
    requires core { (core ≡ passes.old.core) × (passes.old.core ≡ victims.old.core) }
    requires cores { length rings.now ≡ victims.old.cores }
    requires idle { AreIdle (label_of store.now.id (length rings.now)) (seats_of passes.old.items) }
    ensures value { IfOk result (StealsOver passes.old passes.new looks.old looks.new) }
    ensures same { (passes.new.core ≡ passes.old.core) × (seats_of passes.new.items ≡ seats_of passes.old.items) }
    ensures victims { victims.new ≡ record victims.old { calls = (victims.old.calls + 1) % 2 ^ 64 } }
{
    match victims.steal_into(rings, passes, looks) {
        Some(stolen) => {
            let StolenBlock {
                victim,
                place,
                mut block,
            } = stolen;
            let end = block.hold(store, gate, core);
            passes.give_back(rings, victim, place, block);
            Ok(Some(end?))
        }
        None => Ok(None),
    }
}
