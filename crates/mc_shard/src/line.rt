//! Lines of slots.
ghost use Rattle.std.specs.Prelude.{◌≡◌, ◌<◌, ◌≤◌, [], ◌∷◌, ◌++◌, length, set, slice_get, Some, true, false};
ghost use Rattle.std.specs.List.{remove};
ghost use Rattle.mc_shard.specs.Places.{moved};
ghost use Rattle.mc_shard.specs.declared.slot.Slot.{Slot};

use crate::slot::Slot;
use std::marker::Model;

// The most slots of a line.
const SLOTS: usize = 7;

/// Up to seven slots, in 64 bytes, and a mark. Contracts see it as the list of its slots, with the
/// mark.
#[derive(Drop)]
pub struct Line {
    count: u32,
    marked: bool,
    slots: [Slot; 7],
}

const _: () = prove!(size_of::<Line>() == 64);

impl Model for Line {
    ghost use Rattle.std.specs.Prelude.{◌≡◌, ◌≤◌, take, length};
    ghost use Rattle.mc_shard.specs.Places.{Held};

    ghost Value = { Held };

    ghost view = { λ l. record { slots = take l.count l.slots; marked = l.marked } };

    ghost invariant = { λ l. (l.count ≤ 7) × (length l.slots ≡ 7) };
}

impl Line {
    /// Begins without a slot, and with this mark.
    pub fn new(marked: bool) -> Line
        ensures value { result ≡ record { slots = []; marked = marked } }
    {
        Line {
            count: 0,
            marked,
            slots: [Slot { hash: 0, place: 0 }; 7],
        }
    }

    /// Checks whether the line is marked.
    #[inline(always)]
    pub fn is_marked(&self) -> bool
        ensures value { result ≡ self.now.marked }
    {
        self.marked
    }

    /// Checks whether there is no room for one more slot.
    #[inline(always)]
    pub fn is_full(&self) -> bool
        ensures full { result ≡ true → length self.now.slots ≡ 7 }
        ensures room { result ≡ false → length self.now.slots < 7 }
    {
        self.slots().len() == SLOTS
    }

    /// Returns the slots.
    #[inline(always)]
    pub fn slots(&self) -> &[Slot]
        ensures value { result.now ≡ self.now.slots }
        ensures few { length result.now ≤ 7 }
    {
        &self.slots[..self.count as usize]
    }

    /// Appends a slot.
    #[inline(always)]
    pub fn push(&mut self, slot: Slot)
        requires room { length self.old.slots < 7 }
        ensures slots { self.new.slots ≡ self.old.slots ++ slot ∷ [] }
        ensures mark { self.new.marked ≡ self.old.marked }
    {
        let at = self.count as usize;
        self.slots[at] = slot;
        self.count += 1;
    }

    /// Gives a slot another place.
    #[inline(always)]
    pub fn replace(&mut self, at: usize, place: u32)
        requires within { at < length self.old.slots }
        ensures slots { (slot : Slot) → slice_get self.old.slots at ≡ Some slot
            → self.new.slots ≡ set self.old.slots at (moved slot place) }
        ensures mark { self.new.marked ≡ self.old.marked }
    {
        let hash = self.slots()[at].hash;
        self.slots[at] = Slot { hash, place };
    }

    /// Removes the last slot and marks the line, since the slot's key went to the tree.
    pub fn pop(&mut self) -> Slot
        requires some { 0 < length self.old.slots }
        ensures slots { self.old.slots ≡ self.new.slots ++ result ∷ [] }
        ensures mark { self.new.marked ≡ true }
    {
        self.count -= 1;
        self.marked = true;
        self.slots[self.count as usize]
    }

    /// Removes the slot at an index. Those after it move down.
    pub fn take_out(&mut self, at: usize)
        requires within { at < length self.old.slots }
        ensures slots { self.new.slots ≡ remove self.old.slots at }
        ensures less { length self.new.slots < length self.old.slots }
        ensures mark { self.new.marked ≡ self.old.marked }
    {
        self.slots.copy_within(at + 1.., at);
        self.count -= 1;
    }
}
