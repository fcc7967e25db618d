//! The holds of each connection, added up.
ghost use Rattle.std.specs.Prelude.{◌≡◌, ◌↔◌, ◌≢◌, ◌+◌, ◌<◌, ◌≤◌, ℕ, List, ◌++◌, ◌∷◌, [], length, get_or, IfOk, OnOk};
ghost use Rattle.std.specs.List.{slice_set};
ghost use Rattle.mc_calls.specs.declared.hold.Hold.{Hold};
ghost use Rattle.zy_check.specs.Held.{AreSums, FoundStray, FoundUnheld};
ghost use Rattle.zy_check.specs.Missing.{AreEnded};

use crate::files::Files;
use crate::track::Track;
use mc_calls::Hold;
use std::alloc::Global;
use zy_base::NoMemory;

/// Returns the first connection whose holds do not add up to the number of its commands, if there
/// is one.
pub fn first_unheld(alloc: Global, files: &Files, tracks: &[Track]) -> Result<Option<u32>, NoMemory>
    requires ended { AreEnded files.now tracks.now }
    ensures found { IfOk result (FoundUnheld files.now) }
{
    let count = files.count();
    let sums = sums(alloc, files.holds(), count)?;
    for conn in 0..count {
        if sums[conn as usize] != tracks[conn as usize].commands() {
            return Ok(Some(conn));
        }
    }
    Ok(first_stray(files.holds(), count))
}

// Returns the sums of the holds of the first `count` connections.
fn sums(alloc: Global, holds: &[Hold], count: u32) -> Result<Vec<u64>, NoMemory>
    ensures sums { IfOk result (λ sums. AreSums count holds.now sums.items) }
{
    let Ok(mut sums) = vec![in alloc; 0; count as usize] else {
        return Err(NoMemory);
    };
    for at in 0..holds.len() {
        add(&mut sums, holds[at])?;
    }
    Ok(sums)
}

// Adds a hold to the sum of its connection, if there is one.
fn add(sums: &mut Vec<u64>, hold: Hold) -> Result<(), NoMemory>
    ensures sums { OnOk result ((count : ℕ) (before : List Hold) → AreSums count before sums.old.items
        → AreSums count (before ++ hold ∷ []) sums.new.items) }
{
    let conn = hold.conn as usize;
    if conn < sums.len() {
        let Some(sum) = sums[conn].checked_add(hold.count as u64) else {
            return Err(NoMemory);
        };
        sums[conn] = sum;
    }
    Ok(())
}

// Returns the first connection from `count` on whose sum of holds is above 0, if there is one.
fn first_stray(holds: &[Hold], count: u32) -> Option<u32>
    ensures found { FoundStray count holds.now result }
{
    let mut found = None;
    for at in 0..holds.len() {
        found = lower_stray(found, holds[at], count);
    }
    found
}

// Returns this first connection after one more hold.
fn lower_stray(found: Option<u32>, hold: Hold, count: u32) -> Option<u32>
    ensures found { (before : List Hold) → FoundStray count before found
        → FoundStray count (before ++ hold ∷ []) result }
{
    if hold.conn < count || hold.count == 0 {
        return found;
    }
    match found {
        Some(stray) if stray <= hold.conn => found,
        _ => Some(hold.conn),
    }
}
