//! The rights to make steps on the control words.
ghost use Rattle.std.specs.Prelude.{◌≡◌};
ghost use Rattle.zy_control.specs.View.{has_counted, number_of};

use crate::view::View;
use atomic_table::Seat;
use std::marker::Model;

/// The right to give each core its pass. Contracts see the number of passes that it gave, and the
/// number of cores.
#[derive(Drop)]
pub struct ControlRoot {
    pub(crate) seat: Seat<u8, View>,
    pub(crate) given: u64,
    pub(crate) cores: u64,
}

impl Model for ControlRoot {
    ghost use Rattle.zy_control.specs.Pass.{Rooted, rooted};
    ghost use Rattle.zy_control.specs.PassSeat.{IsRootSeat};

    ghost Value = { Rooted };

    ghost view = { λ r. rooted r.seat.table_id r.given r.cores };

    ghost invariant = { λ r. IsRootSeat r.given r.cores r.seat.me };
}

/// The right of a core, or of a watcher, to make steps. Contracts see its role, the number of
/// cores, and what it has seen.
#[derive(Drop)]
pub struct ControlPass {
    pub(crate) seat: Seat<u8, View>,
    pub(crate) number: u64,
    pub(crate) cores: u64,
    pub(crate) counted: bool,
}

impl Model for ControlPass {
    ghost use Rattle.zy_control.specs.Pass.{Held, held};
    ghost use Rattle.zy_control.specs.PassSeat.{IsPassSeat};

    ghost Value = { Held };

    ghost view = { λ p. held p.seat.table_id p.seat.me.0.role p.seat.me.0.cores p.seat.me.0.trace };

    ghost invariant = { λ p. IsPassSeat p.number p.cores p.counted p.seat.me };
}

impl ControlPass {
    /// Returns the number of its core; 0 for a watcher.
    pub fn number(&self) -> u64
        ensures value { result ≡ number_of self.now.role }
    {
        self.number
    }

    /// Checks whether its core has counted itself.
    pub fn is_counted(&self) -> bool
        ensures value { result ≡ has_counted self.now.role }
    {
        self.counted
    }
}
