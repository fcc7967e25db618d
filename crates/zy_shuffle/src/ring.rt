//! The ring of one home core.
//!
//! Its words, of a ring with `m` places:
//!
//! - word 0, the head: the number of times that a place was claimed;
//! - word 16, the tail: the number of times that a place was published. Both have a cache line of
//!   their own;
//! - words 32 to 31 + m, the cells: cell `k` modulo `m` has the place that was published as the `k`-th;
//! - the words after them, the doorbells: bit `p` modulo 64 of word `p / 64` is 1 while place `p`
//!   has been given back and not collected.
//!
//! Its slots: slot `p` has the block of place `p`, unless the slot is out with the seat whose hand
//! has the place.
ghost use Rattle.std.specs.Prelude.{◌≡◌, ◌≤◌};

mod bells;
mod ends;
mod passes;
mod plays;
mod steps;
mod view;

use crate::marked::Marked;
use atomic_table::{Table, TableRule};
pub use passes::{CorePass, HomePass};
use std::alloc::Global;
use std::marker::Model;
use view::View;

const HEAD: usize = 0;

const TAIL: usize = 16;

const CELLS: usize = 32;

/// The rule of a ring's table, which holds between any two steps.
pub struct Shuffles;

impl<T: Marked> TableRule<Option<T>, View<T>, ()> for Shuffles {
    ghost use Rattle.zy_shuffle.specs.View.{start};
    ghost use Rattle.zy_shuffle.specs.ShuffleRule.{ShuffleRule};

    ghost holds = { λ _ s. ShuffleRule T.mark T.label s };

    ghost first = { λ _. start };
}

/// The queue of the ready connections of one home core, with the blocks of those that no core has.
/// Its places `0 .. places - 1` are the home's connections, in rising order. Threads share it by
/// reference; a pass is the right to make steps on it.
pub struct Ring<T: Marked> {
    table: Table<Option<T>, View<T>, (), Shuffles, Global>,
    places: u32,
    alloc: Global,
}

impl<T: Marked> Model for Ring<T> {
    ghost use Rattle.zy_shuffle.specs.Pass.{Ringed, ringed};
    ghost use Rattle.zy_shuffle.specs.PassSeat.{IsRinged};

    ghost Value = { Ringed };

    ghost view = { λ r. ringed r.table.shared.table_id r.places };

    ghost invariant = { λ r. IsRinged r.table.shared.table_id r.places };
}

impl<T: Marked + Drop> Drop for Ring<T> {
    fn drop(self) {
        let Self {
            table,
            places: _,
            alloc: _,
        } = self;
        drop(table);
    }
}

impl<T: Marked> Ring<T> {
    /// Returns the number of places, which is the table's number of slots.
    pub fn places(&self) -> u32
        ensures value { result ≡ self.now.places }
        ensures count { result ≡ self.now.id.slots }
        ensures limit { result ≤ 4096 }
    {
        self.places
    }
}
