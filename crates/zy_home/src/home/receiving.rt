//! Receiving items.
ghost use Rattle.std.specs.Prelude.{◌≡◌, ◌<◌, ◌^◌, ◌||◌, true, false, Ok, OnOk, OnErr, IfOk, is_err};
ghost use Rattle.zy_home.specs.Own.{IsOfOthers, is_end};
ghost use Rattle.zy_home.specs.Home.{SameFor, SameHome, StandsMore};
ghost use Rattle.zy_home.specs.Place.{Forwards, SameHand};
ghost use Rattle.zy_home.specs.Items.{ReceivesAll, RefusedAmid};

use super::Home;
use crate::place::ended_by;
use zy_base::NoMemory;
use zy_conn::Block;
use zy_rx::{Outlet, Rx};
use zy_shuffle::Ring;

impl Home {
    /// Receives an item. A segment is cut, and a close ends the session of its connection, even
    /// while its block is away; the block of an idle connection that got an event is published. An
    /// item after the end is dropped, and so is one of a connection that is not the home's.
    /// The program calls `receive_all`.
    pub fn receive(&mut self, ring: &Ring<Block>, item: Rx) -> Result<(), NoMemory>
        requires table { self.old.pass.table ≡ ring.now.id }
        requires few { self.old.pass.count < 2 ^ 63 }
        requires live { self.old.refused ≡ false }

        // What was received, and what was done with it.
        ensures stands { OnOk result (StandsMore self.old item self.new) }
        ensures ended { OnOk result (self.new.ended ≡ (self.old.ended || is_end item)) }
        ensures forwards { OnOk result (Forwards self.old self.new item) }

        // What is dropped.
        ensures still { self.old.ended ≡ true → (result ≡ Ok tt) × (self.new ≡ self.old) }
        ensures others { IsOfOthers self.old.core self.old.cores self.old.count item
            → (result ≡ Ok tt) × (self.new ≡ self.old) }

        // What stays, and a failed allocation.
        ensures same { SameHome self.old self.new }
        ensures refused { self.new.refused ≡ is_err result }
        ensures err { OnErr result (SameHand self.old self.new) }
    {
        let Some(at) = self.links.place_for(&item) else {
            self.links.ended = ended_by(self.links.ended, &item);
            drop(item);
            return Ok(());
        };
        self.links.cut_for(at, &self.blocks, item)?;
        self.links
            .settle_place(ring, &mut self.pass, &mut self.blocks, &mut self.room, at)
    }

    /// Takes items from the outlet and receives them, until none is known or there were 64, and
    /// returns their number. All of them are cut first. Then each block in the home's hand that got
    /// an event is published, so a block may have the events of several items when it is claimed.
    pub fn receive_all(&mut self, ring: &Ring<Block>, outlet: &mut Outlet) -> Result<u32, NoMemory>
        requires table { self.old.pass.table ≡ ring.now.id }
        requires few { self.old.pass.count < 2 ^ 62 }
        requires live { self.old.refused ≡ false }
        ensures value { IfOk result (ReceivesAll self.old outlet.old self.new outlet.new) }
        ensures still { self.old.ended ≡ true → self.new ≡ self.old }
        ensures same { SameFor 64 self.old self.new }
        ensures ring { outlet.new.ring ≡ outlet.old.ring }
        ensures refused { self.new.refused ≡ is_err result }
        ensures err { OnErr result (RefusedAmid self.old self.new) }
    {
        let count = self.links.cut_all(&self.blocks, outlet)?;
        self.links
            .settle_all(ring, &mut self.pass, &mut self.blocks, &mut self.room)?;
        Ok(count)
    }
}
