//! Putting the tokens of cores, and taking them.
ghost use Rattle.std.specs.Prelude.{◌≡◌, ◌<◌, ◌≤◌, ◌==◌, length, Some, slice_get};
ghost use Rattle.std.specs.Int.{bit_at};
ghost use Rattle.zy_park.specs.Token.{rings, takes};
ghost use Rattle.zy_park.specs.Pass.{change_at, rung_by};
ghost use Rattle.zy_park.specs.Bell.{tables_of, views_of};

use crate::bell::{Bell, BellSeat, Lent, Sleeper};
use std::sync::Wait;

// Puts the token of one core.
pub(crate) fn ring_at(bells: &Vec<Bell>, seats: &mut Vec<BellSeat>, core: u32)
    requires bells { tables_of seats.old.items ≡ bells.now.items }
    requires core { core < length bells.now.items }
    ensures bells { tables_of seats.new.items ≡ tables_of seats.old.items }
    ensures value { views_of seats.new.items ≡ change_at rings core (views_of seats.old.items) }
{
    let bell = &bells[core as usize];
    bell.ring(&mut seats[core as usize]);
}

// Puts the token of each core whose bit is 1 in the word.
pub(crate) fn ring_each_at(bells: &Vec<Bell>, seats: &mut Vec<BellSeat>, word: u64)
    requires bells { tables_of seats.old.items ≡ bells.now.items }
    requires few { length bells.now.items ≤ 64 }
    ensures bells { tables_of seats.new.items ≡ tables_of seats.old.items }
    ensures value { views_of seats.new.items ≡ rung_by word 0 (views_of seats.old.items) }
{
    for core in 0..bells.len() as u32 {
        if is_set(word, core) {
            ring_at(bells, seats, core);
        }
    }
}

// Checks whether the bit with this number is 1 in the word.
fn is_set(word: u64, number: u32) -> bool
    requires within { number < 64 }
    ensures value { result ≡ (bit_at word number == 1) }
{
    (word >> number) & 1 == 1
}

// Waits until the token of a core is there, and takes it.
pub(crate) fn rest_at<J: Lent, R: Wait>(
    rt: &R,
    sleeper: &Sleeper,
    seats: &mut Vec<BellSeat>,
    core: u32,
)
    requires own { slice_get (tables_of seats.old.items) core ≡ Some sleeper.now }
    ensures bells { tables_of seats.new.items ≡ tables_of seats.old.items }
    ensures value { views_of seats.new.items ≡ change_at (takes J.lent) core (views_of seats.old.items) }
{
    sleeper.rest::<J, R>(rt, &mut seats[core as usize]);
}
