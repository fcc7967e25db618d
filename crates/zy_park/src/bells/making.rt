//! Making bells, and the passes at them.
ghost use Rattle.std.specs.Prelude.{◌≡◌, ◌+◌, ◌≤◌, length, [], ◌∷◌, ◌++◌, map, Some, None, false, slice_get, slice_set};
ghost use Rattle.std.specs.Prelude.{IfOk, OnOk};
ghost use Rattle.zy_park.specs.Pass.{new_root};
ghost use Rattle.zy_park.specs.Bell.{given_of, new_seat};

use crate::bell::{Bell, BellSeat, Sleeper};
use crate::pass::BellRoot;
use std::alloc::Global;
use zy_base::NoMemory;

// Adds the bells of `cores` cores to an empty list.
pub(crate) fn add_all(
    alloc: Global,
    cores: u32,
    bells: &mut Vec<Bell>,
    root: &mut BellRoot,
) -> Result<(), NoMemory>
    requires none { (bells.old.items ≡ []) × (root.old ≡ new_root []) }
    requires few { cores ≤ 64 }
    ensures cores { OnOk result (length bells.new.items ≡ cores) }
    ensures root { OnOk result (root.new ≡ new_root bells.new.items) }
{
    for _ in 0..cores {
        add(alloc, bells, root)?;
    }
    Ok(())
}

// Adds a bell.
fn add(alloc: Global, bells: &mut Vec<Bell>, root: &mut BellRoot) -> Result<(), NoMemory>
    requires root { root.old ≡ new_root bells.old.items }
    ensures cores { OnOk result (length bells.new.items ≡ length bells.old.items + 1) }
    ensures root { OnOk result (root.new ≡ new_root bells.new.items) }
{
    bells.reserve(1)?;
    root.sleepers.reserve(1)?;
    root.seats.reserve(1)?;
    let (bell, sleeper, seat) = Bell::new(alloc)?;
    bells.push_reserved(bell);
    root.sleepers.push_reserved(Some(sleeper));
    root.seats.push_reserved(seat);
    Ok(())
}

// Makes a seat at each bell.
pub(crate) fn enter_each(bells: &Vec<Bell>) -> Result<Vec<BellSeat>, NoMemory>
    ensures value { IfOk result (λ seats. seats.items ≡ map new_seat bells.now.items) }
{
    let mut seats = Vec::with_capacity(*bells.allocator(), bells.len())?;
    for i in 0..bells.len() {
        let bell = &bells[i];
        seats.push_reserved(bell.enter());
    }
    Ok(seats)
}

// Takes the parker of a core, which is there.
pub(crate) fn take_sleeper(sleepers: &mut Vec<Option<Sleeper>>, core: u32) -> Sleeper
    requires free { slice_get (given_of sleepers.old.items) core ≡ Some false }
    ensures value { slice_get sleepers.old.items core ≡ Some (Some result) }
    ensures after { sleepers.new.items ≡ slice_set sleepers.old.items core None }
{
    match sleepers[core as usize].take() {
        Some(sleeper) => sleeper,
        None => unreachable!(),
    }
}
