//! Cutting items for the connections of a home, which leaves its pass and its blocks as they are.
ghost use Rattle.std.specs.Prelude.{◌≡◌, ◌≤◌, ◌<◌, ◌+◌, [], true, false, length, is_err, ℕ, List};
ghost use Rattle.std.specs.Prelude.{Ok, OnOk, OnErr, IfOk, IfSome, IfNone};
ghost use Rattle.zy_shuffle.specs.Pass.{Held};
ghost use Rattle.zy_conn.specs.Block.{Blocked};
ghost use Rattle.zy_home.specs.Home.{IsSoundBut, IsSoundHome};
ghost use Rattle.zy_home.specs.Links.{AreOfCore, ComesIn, SameConns, homed};
ghost use Rattle.zy_home.specs.Items.{RefusedAmid};
ghost use Rattle.zy_home.specs.Receiving.{CutsAll, CutsIn, left_after};

use super::Links;
use crate::place::{conn_in, cut_at, ended_by};
use zy_base::NoMemory;
use zy_conn::Block;
use zy_rx::{Outlet, Rx};

// The most items that a call cuts.
const ITEMS_AT_ONCE: u32 = 64;

impl Links {
    // Returns the place of the connection that an item is for; `None` if the item is dropped or the
    // end.
    pub(crate) fn place_for(&self, item: &Rx) -> Option<usize>
        requires own { AreOfCore self.now }
        ensures some { IfSome result (λ at. ComesIn self.now at item.now) }
        ensures none { IfNone result ((at : ℕ) → ComesIn self.now at item.now → ⊥) }
    {
        if self.ended {
            return None;
        }
        match conn_in(item) {
            Some(conn) => self.places.place_of(conn),
            None => None,
        }
    }

    // Takes items from the outlet and cuts them, until none is known or there were 64, and returns
    // their number. The slots have the blocks that are in the home's hand.
    pub(crate) fn cut_all(
        &mut self,
        slots: &Vec<Option<Block>>,
        outlet: &mut Outlet,
    ) -> Result<u32, NoMemory>
        requires own { AreOfCore self.old }
        requires long { length slots.now.items ≡ length self.old.items.items }
        requires live { self.old.refused ≡ false }
        ensures value { IfOk result (λ count. (pass : Held Blocked)
            → CutsAll (homed pass slots.now.items self.old) outlet.old.taken
            (homed pass slots.now.items self.new) outlet.new.taken count) }
        ensures few { IfOk result (λ count. (count ≤ 64) × (count < 64 → outlet.new.known ≡ [])) }
        ensures room { IfOk result (λ count. length self.new.touched.items ≤ count) }
        ensures err { OnErr result ((pass : Held Blocked)
            → RefusedAmid (homed pass slots.now.items self.old) (homed pass slots.now.items self.new)) }
        ensures sound { (pass : Held Blocked) → IsSoundHome (homed pass slots.now.items self.old)
            → IsSoundBut self.new.touched.items (homed pass slots.now.items self.new) }
        ensures same { SameConns self.old self.new }
        ensures ring { outlet.new.ring ≡ outlet.old.ring }
        ensures still { self.old.ended ≡ true → (is_err result ≡ false)
            × (self.new ≡ record self.old { touched = self.new.touched }) × (self.new.touched.items ≡ []) }
        ensures refused { self.new.refused ≡ is_err result }
    {
        self.touched.clear();
        for count in 0..ITEMS_AT_ONCE {
            let Some(item) = outlet.take() else {
                return Ok(count);
            };
            self.cut_in(slots, item)?;
        }
        Ok(ITEMS_AT_ONCE)
    }

    // Cuts an item, or drops it, or notes the end.
    fn cut_in(&mut self, slots: &Vec<Option<Block>>, item: Rx) -> Result<(), NoMemory>
        requires own { AreOfCore self.old }
        requires long { length slots.now.items ≡ length self.old.items.items }
        requires live { self.old.refused ≡ false }
        ensures value { OnOk result ((pass : Held Blocked)
            → CutsIn (homed pass slots.now.items self.old) item (homed pass slots.now.items self.new)) }
        ensures sound { (pass : Held Blocked) → IsSoundBut self.old.touched.items (homed pass slots.now.items self.old)
            → IsSoundBut self.new.touched.items (homed pass slots.now.items self.new) }
        ensures room { length self.new.touched.items ≤ length self.old.touched.items + 1 }
        ensures still { self.old.ended ≡ true → (result ≡ Ok tt) × (self.new ≡ self.old) }
        ensures same { SameConns self.old self.new }
        ensures refused { self.new.refused ≡ is_err result }
    {
        let Some(at) = self.place_for(&item) else {
            self.ended = ended_by(self.ended, &item);
            drop(item);
            return Ok(());
        };
        match self.cut_for(at, slots, item) {
            Ok(true) => match self.touched.push(at) {
                Ok(()) => Ok(()),
                Err(_) => {
                    self.refused = true;
                    Err(NoMemory)
                }
            },
            Ok(false) => Ok(()),
            Err(e) => Err(e),
        }
    }

    // Cuts an item for the connection at a place. Says whether its block is in the slot and may have
    // got a frame, so that it is left to settle.
    pub(crate) fn cut_for(
        &mut self,
        at: usize,
        slots: &Vec<Option<Block>>,
        item: Rx,
    ) -> Result<bool, NoMemory>
        requires own { AreOfCore self.old }
        requires long { length slots.now.items ≡ length self.old.items.items }
        requires comes { ComesIn self.old at item }
        requires live { self.old.refused ≡ false }
        ensures value { OnOk result ((pass : Held Blocked)
            → CutsIn (homed pass slots.now.items self.old) item (homed pass slots.now.items self.new)) }
        ensures sound { (pass : Held Blocked) (left : List ℕ) → IsSoundBut left (homed pass slots.now.items self.old)
            → IsSoundBut (left_after at result left) (homed pass slots.now.items self.new) }
        ensures same { SameConns self.old self.new }
        ensures kept { (self.new.touched ≡ self.old.touched) × (self.new.ended ≡ self.old.ended) }
        ensures refused { self.new.refused ≡ is_err result }
    {
        cut_at(&slots[at], &mut self.items[at], item, &mut self.refused)
    }
}
