//! Searches of a line.
ghost use Rattle.std.specs.Prelude.{◌≡◌, ℕ, ◌<◌, length, None, IfSome, IfNone};
ghost use Rattle.mc_shard.specs.Places.{place_in, keys_in, AreSlots, AreOwn, IsFirstAt, IsWith};

use crate::hashed::Sought;
use crate::line::Line;
use crate::stored::Stored;

// Returns the index of the first slot of a key.
#[inline(always)]
pub(super) fn index_of<S: Stored>(line: &Line, stored: &S, key: &Sought<'_>) -> Option<usize>
    requires slots { AreSlots (S.stored stored.now) line.now.slots }
    ensures within { IfSome result (λ at. at < length line.now.slots) }
    ensures some { IfSome result (IsFirstAt (keys_in (S.stored stored.now) line.now.slots) key.now) }
    ensures none { IfNone result (place_in (keys_in (S.stored stored.now) line.now.slots) key.now ≡ None) }
{
    let hash = key.hash();
    let slots = line.slots();
    for at in 0..slots.len() {
        let slot = &slots[at];
        if slot.hash == hash && key.has(stored.key_at(slot.place)) {
            return Some(at);
        }
    }
    None
}

// Returns the place of a key in a line.
#[inline(always)]
pub(super) fn place_of<S: Stored>(line: &Line, stored: &S, key: &Sought<'_>) -> Option<u32>
    requires slots { AreSlots (S.stored stored.now) line.now.slots }
    ensures value { result ≡ place_in (keys_in (S.stored stored.now) line.now.slots) key.now }
{
    match index_of(line, stored, key) {
        Some(at) => Some(line.slots()[at].place),
        None => None,
    }
}

// Removes the slots of a key.
pub(super) fn clear_of<S: Stored>(line: &mut Line, stored: &S, key: &Sought<'_>)
    requires slots { AreSlots (S.stored stored.now) line.old.slots }
    ensures slots { AreSlots (S.stored stored.now) line.new.slots }
    ensures own { (shift at : ℕ) → AreOwn shift at line.old.slots → AreOwn shift at line.new.slots }
    ensures value { IsWith (keys_in (S.stored stored.now) line.old.slots) key.now None
        (keys_in (S.stored stored.now) line.new.slots) }
    ensures mark { line.new.marked ≡ line.old.marked }
{
    while let Some(at) = index_of(line, stored, key) {
        line.take_out(at);
    }
}
