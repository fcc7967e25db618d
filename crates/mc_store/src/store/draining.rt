//! The shards' histories, out of a closed table.
ghost use Rattle.std.specs.Prelude.{◌≡◌, ◌≤◌, [], map, vec_len, vec_capacity};
ghost use Rattle.std.specs.Slots.{slots_items, slots_len, IsFull};
ghost use Rattle.mc_store.specs.Closing.{history_in};

use atomic_table::Closed;
use mc_history::History;
use mc_shard::Shard;
use std::alloc::Global;

// Returns the history of each shard, in their order. The lists have room for all.
pub(crate) fn drain(mut closed: Closed<Shard, Global>, mut lists: Vec<History>) -> Vec<History>
    requires full { IsFull closed.slots }
    requires room { slots_len closed.slots ≤ vec_capacity lists }
    requires empty { lists.items ≡ [] }
    requires none { vec_len lists ≡ 0 }
    ensures value { result.items ≡ map history_in (slots_items closed.slots) }
{
    for place in 0..closed.slot_count() {
        lists.push_reserved(closed.take(place).into_history());
    }
    closed.free();
    lists
}
