//! The passes of a ring: the one of its home, and one of each core that may steal.
ghost use Rattle.std.specs.Prelude.{◌≡◌};

use super::view::View;
use atomic_table::Seat;
use std::marker::Model;

/// The right of the home core to publish, to claim and to collect. Contracts see its hand and what
/// it has seen.
#[derive(Drop)]
pub struct HomePass<T> {
    pub(crate) seat: Seat<Option<T>, View<T>>,
    pub(crate) tail: u64,
}

impl<T> Model for HomePass<T> {
    ghost use Rattle.zy_shuffle.specs.Pass.{Held, held};
    ghost use Rattle.zy_shuffle.specs.PassSeat.{IsHomeSeat};

    ghost Value = { Held T };

    ghost view = { λ p. held p.seat.table_id p.seat.me.0 };

    ghost invariant = { λ p. IsHomeSeat p.seat.table_id.slots p.tail p.seat.me };
}

/// The right of another core to claim, and to give back what it claimed.
#[derive(Drop)]
pub struct CorePass<T> {
    pub(crate) seat: Seat<Option<T>, View<T>>,
    // The place whose slot is in front, if that is known: the place of the last claim.
    pub(crate) front: Option<u32>,
}

impl<T> Model for CorePass<T> {
    ghost use Rattle.zy_shuffle.specs.Pass.{Held, held};
    ghost use Rattle.zy_shuffle.specs.PassSeat.{IsCorePass};

    ghost Value = { Held T };

    ghost view = { λ p. held p.seat.table_id p.seat.me.0 };

    ghost invariant = { λ p. IsCorePass p.seat.table_id.slots p.front p.seat.me };
}

impl<T> HomePass<T> {
    /// Returns the number of the home's publications.
    pub fn count(&self) -> u64
        ensures value { result ≡ self.now.count }
    {
        self.tail
    }
}
