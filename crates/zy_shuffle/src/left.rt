//! The blocks of a ring that was closed.
ghost use Rattle.std.specs.Prelude.{◌≡◌, ◌+◌, ◌<◌, ◌≤◌, [], ◌++◌, vec_len, vec_capacity};
ghost use Rattle.std.specs.Slots.{slots_items, slots_len, IsFull};
ghost use Rattle.zy_shuffle.specs.Hand.{one_left, left_of};

use atomic_table::Closed;
use std::alloc::Global;
use std::marker::Model;

/// The blocks that were in the table when it was closed. Contracts see it as the list of pairs of
/// place and block, by rising place.
#[derive(Drop)]
pub struct Left<T> {
    items: Vec<(u32, T)>,
}

impl<T> Model for Left<T> {
    ghost use Rattle.std.specs.Prelude.{List, ℕ};

    ghost Value = { List (ℕ × T) };

    ghost view = { λ l. l.items.items };
}

impl<T> Left<T> {
    /// Returns the pairs of place and block. Takes no memory.
    pub fn items(self) -> Vec<(u32, T)>
        ensures value { result.items ≡ self }
    {
        let Left { items } = self;
        items
    }

    // Makes the list of the blocks in the slots of a closed table. It has room for them.
    pub(crate) fn from_slots(closed: Closed<Option<T>, Global>, items: Vec<(u32, T)>) -> Left<T>
        requires full { IsFull closed.slots }
        requires few { slots_len closed.slots ≤ 4096 }
        requires room { slots_len closed.slots ≤ vec_capacity items }
        requires empty { (items.items ≡ []) × (vec_len items ≡ 0) }
        ensures value { result ≡ left_of 0 (slots_items closed.slots) }
    {
        Left {
            items: drain(closed, items),
        }
    }
}

// Adds the block of this place, if its slot has one.
fn add<T>(items: &mut Vec<(u32, T)>, place: u32, slot: Option<T>)
    requires room { vec_len items.old < vec_capacity items.old }
    ensures value { items.new.items ≡ items.old.items ++ one_left place slot }
    ensures count { vec_len items.new ≤ vec_len items.old + 1 }
    ensures kept { vec_capacity items.new ≡ vec_capacity items.old }
{
    if let Some(block) = slot {
        items.push_reserved((place, block));
    }
}

// Takes the value out of each slot, and frees the slots.
fn drain<T>(mut closed: Closed<Option<T>, Global>, mut items: Vec<(u32, T)>) -> Vec<(u32, T)>
    requires full { IsFull closed.slots }
    requires few { slots_len closed.slots ≤ 4096 }
    requires room { slots_len closed.slots ≤ vec_capacity items }
    requires empty { (items.items ≡ []) × (vec_len items ≡ 0) }
    ensures value { result.items ≡ left_of 0 (slots_items closed.slots) }
{
    let count = closed.slot_count();
    for k in 0..count {
        add(&mut items, k as u32, closed.take(k));
    }
    closed.free();
    items
}
