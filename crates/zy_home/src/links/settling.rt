//! Settling the blocks of a home's connections.
ghost use Rattle.std.specs.Prelude.{◌≡◌, ◌<◌, ◌≤◌, ◌^◌, ℕ, List, [], ◌∷◌, false, length, Ok, OnOk, OnErr, is_err};
ghost use Rattle.zy_home.specs.Home.{IsSoundBut, IsSoundHome, SameFor, SameHome, StandsHome};
ghost use Rattle.zy_home.specs.Place.{IsOut, PutsBack, SameHand, Settles};
ghost use Rattle.zy_home.specs.Links.{homed};
ghost use Rattle.zy_home.specs.Items.{RefusedAmid};
ghost use Rattle.zy_home.specs.Receiving.{SettlesAt, SettlesOn};

use super::Links;
use crate::place::settle_at;
use std::mem;
use zy_base::NoMemory;
use zy_calls::Room;
use zy_conn::Block;
use zy_shuffle::{HomePass, Publishing, Ring, WasIdle};

impl Links {
    // Settles a block that belongs to a place. `B` is what its connection was before.
    pub(crate) fn settle<B: Publishing>(
        &mut self,
        ring: &Ring<Block>,
        pass: &mut HomePass<Block>,
        slots: &mut Vec<Option<Block>>,
        room: &mut Room,
        place: u32,
        block: Block,
    ) -> Result<(), NoMemory>
        requires table { pass.old.table ≡ ring.now.id }
        requires few { pass.old.count < 2 ^ 63 }
        requires live { self.old.refused ≡ false }
        requires sound { IsSoundHome (homed pass.old slots.old.items self.old) }
        requires out { IsOut (homed pass.old slots.old.items self.old) place block }
        ensures settled { OnOk result (Settles B.before place block
            (homed pass.old slots.old.items self.old) (homed pass.new slots.new.items self.new)) }
        ensures stands { OnOk result (StandsHome
            (homed pass.old slots.old.items self.old) (homed pass.new slots.new.items self.new)) }
        ensures err { OnErr result (PutsBack place
            (homed pass.old slots.old.items self.old) (homed pass.new slots.new.items self.new)) }
        ensures sound { IsSoundHome (homed pass.new slots.new.items self.new) }
        ensures same { SameHome (homed pass.old slots.old.items self.old) (homed pass.new slots.new.items self.new) }
        ensures kept { (self.new.ended ≡ self.old.ended) × (self.new.refused ≡ is_err result) }
    {
        let at = place as usize;
        settle_at::<B>(
            ring,
            pass,
            &mut slots[at],
            &mut self.items[at],
            room,
            place,
            block,
            &mut self.refused,
        )
    }

    // Settles the blocks of the places that were touched.
    pub(crate) fn settle_all(
        &mut self,
        ring: &Ring<Block>,
        pass: &mut HomePass<Block>,
        slots: &mut Vec<Option<Block>>,
        room: &mut Room,
    ) -> Result<(), NoMemory>
        requires table { pass.old.table ≡ ring.now.id }
        requires few { pass.old.count < 2 ^ 62 }
        requires live { self.old.refused ≡ false }
        requires left { IsSoundBut self.old.touched.items (homed pass.old slots.old.items self.old) }
        requires most { length self.old.touched.items ≤ 64 }
        ensures ok { OnOk result (SettlesOn
            (homed pass.old slots.old.items self.old) (homed pass.new slots.new.items self.new)) }
        ensures err { OnErr result (RefusedAmid
            (homed pass.old slots.old.items self.old) (homed pass.new slots.new.items self.new)) }
        ensures sound { IsSoundHome (homed pass.new slots.new.items self.new) }
        ensures same { SameFor 64
            (homed pass.old slots.old.items self.old) (homed pass.new slots.new.items self.new) }
        ensures still { self.old.touched.items ≡ [] → (result ≡ Ok tt)
            × (self.new ≡ self.old) × (pass.new ≡ pass.old) × (slots.new.items ≡ slots.old.items) }
        ensures refused { self.new.refused ≡ is_err result }
    {
        for i in 0..self.touched.len() {
            let place = self.touched[i];
            self.settle_place(ring, pass, slots, room, place)?;
        }
        Ok(())
    }

    // Settles the block of a place, if it is in its slot, as one of a connection that was idle.
    pub(crate) fn settle_place(
        &mut self,
        ring: &Ring<Block>,
        pass: &mut HomePass<Block>,
        slots: &mut Vec<Option<Block>>,
        room: &mut Room,
        place: usize,
    ) -> Result<(), NoMemory>
        requires table { pass.old.table ≡ ring.now.id }
        requires few { pass.old.count < 2 ^ 63 }
        requires live { self.old.refused ≡ false }
        requires left { (rest : List ℕ) × IsSoundBut (place ∷ rest) (homed pass.old slots.old.items self.old) }
        ensures ok { OnOk result (SettlesAt place
            (homed pass.old slots.old.items self.old) (homed pass.new slots.new.items self.new)) }
        ensures err { OnErr result (SameHand
            (homed pass.old slots.old.items self.old) (homed pass.new slots.new.items self.new)) }
        ensures sound { (rest : List ℕ) → IsSoundBut (place ∷ rest) (homed pass.old slots.old.items self.old)
            → IsSoundBut rest (homed pass.new slots.new.items self.new) }
        ensures same { SameHome (homed pass.old slots.old.items self.old) (homed pass.new slots.new.items self.new) }
        ensures kept { (self.new.touched ≡ self.old.touched) × (self.new.ended ≡ self.old.ended) }
        ensures refused { self.new.refused ≡ is_err result }
    {
        // The call tells the prover that the places are the slots of the ring's table, at most 4096.
        let _places = ring.places();
        let (slot, link, refused) = (&mut slots[place], &mut self.items[place], &mut self.refused);
        let Some(block) = mem::replace(slot, None) else {
            return Ok(());
        };
        settle_at::<WasIdle>(ring, pass, slot, link, room, place as u32, block, refused)
    }
}
