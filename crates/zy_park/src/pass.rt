//! The rights to step on the tokens of all cores.
ghost use Rattle.std.specs.Prelude.{◌≡◌};

use crate::bell::{BellSeat, Sleeper};
use std::marker::Model;

/// The pass of a core: its own parker, and a seat at each bell. Contracts see the bells, its core,
/// and what each of its seats knows.
#[derive(Drop)]
pub struct BellPass {
    pub(crate) core: u32,
    pub(crate) sleeper: Sleeper,
    pub(crate) seats: Vec<BellSeat>,
}

impl Model for BellPass {
    ghost use Rattle.std.specs.Prelude.{◌≡◌, Some, slice_get};
    ghost use Rattle.zy_park.specs.Pass.{Passed, passed};
    ghost use Rattle.zy_park.specs.Bell.{tables_of, views_of};

    ghost Value = { Passed };

    ghost view = { λ p. passed (tables_of p.seats.items) p.core (views_of p.seats.items) };

    ghost invariant = { λ p. slice_get (tables_of p.seats.items) p.core ≡ Some p.sleeper };
}

impl BellPass {
    /// Returns the number of its core.
    pub fn core(&self) -> u32
        ensures value { result ≡ self.now.core }
    {
        self.core
    }
}

/// The root: the parkers of the cores that were not given their pass, and a seat at each bell.
/// Contracts see the bells, which cores were given their pass, and what each of its seats knows.
#[derive(Drop)]
pub struct BellRoot {
    pub(crate) sleepers: Vec<Option<Sleeper>>,
    pub(crate) seats: Vec<BellSeat>,
}

impl Model for BellRoot {
    ghost use Rattle.zy_park.specs.Pass.{Rooted, rooted};
    ghost use Rattle.zy_park.specs.Bell.{tables_of, views_of, given_of, AreParkers};

    ghost Value = { Rooted };

    ghost view = { λ r. rooted (tables_of r.seats.items) (given_of r.sleepers.items) (views_of r.seats.items) };

    ghost invariant = { λ r. AreParkers (tables_of r.seats.items) r.sleepers.items };
}
