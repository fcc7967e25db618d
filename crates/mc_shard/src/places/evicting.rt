//! Room in a line.
ghost use Rattle.std.specs.Prelude.{◌<◌, length, OnOk};
ghost use Rattle.mc_shard.specs.Places.{AreSlots, IsRoomier};

use crate::hashed::{Hashed, Sought};
use crate::line::Line;
use crate::stored::Stored;
use std::collections::BTreeMap;
use zy_base::NoMemory;

// Moves the key of the last slot to the tree if the line is full.
pub(super) fn make_room<S: Stored>(
    line: &mut Line,
    tree: &mut BTreeMap<Hashed, u32>,
    stored: &S,
) -> Result<(), NoMemory>
    requires slots { AreSlots (S.stored stored.now) line.old.slots }
    ensures room { OnOk result (length line.new.slots < 7) }
    ensures same { IsRoomier (S.stored stored.now) line.old tree.old.entries line.new tree.new.entries }
{
    if !line.is_full() {
        return Ok(());
    }
    let slots = line.slots();
    let last = slots[slots.len() - 1];
    let key = Sought::with_hash(stored.key_at(last.place), last.hash).copy()?;
    match tree.insert(key, last.place) {
        Ok(_) => {
            line.pop();
            Ok(())
        }
        Err(back) => {
            drop(back);
            Err(NoMemory)
        }
    }
}
