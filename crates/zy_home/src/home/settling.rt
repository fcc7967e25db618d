//! Settling blocks: those that come back, and those that the home claims itself.
ghost use Rattle.std.specs.Prelude.{◌≡◌, ◌<◌, ◌^◌, List, true, false, OnOk, OnErr, IfOk, is_err};
ghost use Rattle.zy_shuffle.specs.Run.{was_held};
ghost use Rattle.zy_conn.specs.Block.{label_of};
ghost use Rattle.zy_home.specs.Home.{SameHome, StandsHome, all_here};
ghost use Rattle.zy_home.specs.Place.{IsOut, Settles, PutsBack, StaysIn, OnlyLooked, CollectsTo, OwnsTo};

use super::Home;
use crate::own::Own;
use crate::place::{hold, put};
use mc_store::StoreTable;
use zy_base::{Gate, NoMemory};
use zy_conn::Block;
use zy_shuffle::{Claim, Ring, WasHeld};

impl Home {
    /// Settles the block of a place of the home's hand: its texts are moved to the output, waiting
    /// frames are offered, and it is published if and only if it then has an event. Otherwise, and
    /// if allocation fails, it stays in the home's hand.
    pub fn settle(&mut self, ring: &Ring<Block>, place: u32, block: Block) -> Result<(), NoMemory>
        requires table { self.old.pass.table ≡ ring.now.id }
        requires few { self.old.pass.count < 2 ^ 63 }
        requires live { self.old.refused ≡ false }
        requires out { IsOut self.old place block }
        ensures settled { OnOk result (Settles was_held place block self.old self.new) }
        ensures stands { OnOk result (StandsHome self.old self.new) }
        ensures same { SameHome self.old self.new × (self.new.ended ≡ self.old.ended) }
        ensures refused { self.new.refused ≡ is_err result }
        ensures err { OnErr result (PutsBack place self.old self.new) }
    {
        let (pass, slots, room) = (&mut self.pass, &mut self.blocks, &mut self.room);
        self.links
            .settle::<WasHeld>(ring, pass, slots, room, place, block)
    }
}

impl Home {
    /// Collects a block that was given back, and settles it; `false` if and only if the ring's
    /// `collect` answered `None`. If allocation fails, the block stays in the home's hand.
    pub fn collect(&mut self, ring: &Ring<Block>) -> Result<bool, NoMemory>
        requires table { self.old.pass.table ≡ ring.now.id }
        requires few { self.old.pass.count < 2 ^ 63 }
        requires live { self.old.refused ≡ false }
        ensures value { IfOk result (CollectsTo ring.now.places self.old self.new) }
        ensures still { all_here self.old.blocks ≡ true → OnlyLooked self.old self.new }
        ensures stands { OnOk result (StandsHome self.old self.new) }
        ensures same { SameHome self.old self.new × (self.new.ended ≡ self.old.ended) }
        ensures refused { self.new.refused ≡ is_err result }
        ensures err { OnErr result (StaysIn ring.now.places self.old self.new) }
    {
        // The call tells the prover that the places are the slots of the ring's table, at most 4096.
        let _places = ring.places();
        let Some((place, block)) = ring.collect(&mut self.pass) else {
            return Ok(false);
        };
        match self.settle(ring, place, block) {
            Ok(()) => Ok(true),
            Err(e) => Err(e),
        }
    }

    /// Claims once from the home's own queue. A block that was taken is held by the home's core,
    /// and then settled; `Empty` and `Raced` are the answers of the claim. If allocation fails, a
    /// block that was taken stays in the home's hand.
    pub fn own<G: Gate>(
        &mut self,
        ring: &Ring<Block>,
        store: &StoreTable,
        gate: &G,
    ) -> Result<Own, NoMemory>
        requires table { self.old.pass.table ≡ ring.now.id }
        requires few { self.old.pass.count < 2 ^ 63 }
        requires live { self.old.refused ≡ false }
        requires store { self.old.pass.label ≡ label_of store.now.id self.old.cores }
        ensures value { IfOk result (OwnsTo ring.now.places self.old self.new) }
        ensures still { all_here self.old.blocks ≡ true → OnlyLooked self.old self.new }
        ensures stands { OnOk result (StandsHome self.old self.new) }
        ensures same { SameHome self.old self.new × (self.new.ended ≡ self.old.ended) }
        ensures refused { self.new.refused ≡ is_err result }
        ensures err { OnErr result (StaysIn ring.now.places self.old self.new) }
    {
        // The call tells the prover that the places are the slots of the ring's table, at most 4096.
        let _places = ring.places();
        match ring.claim_home(&mut self.pass) {
            Claim::Took { place, mut block } => {
                match hold(
                    &mut block,
                    store,
                    gate,
                    self.links.places.core(),
                    &mut self.room,
                ) {
                    Ok(held) => match self.settle(ring, place, block) {
                        Ok(()) => Ok(Own::Took { held }),
                        Err(e) => Err(e),
                    },
                    Err(e) => {
                        put(&mut self.blocks[place as usize], Some(block));
                        self.links.refused = true;
                        Err(e)
                    }
                }
            }
            Claim::Empty { at } => Ok(Own::Empty { at }),
            Claim::Raced { saw, found } => Ok(Own::Raced { saw, found }),
        }
    }
}
