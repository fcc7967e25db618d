//! The home core of each connection.
ghost use Rattle.std.specs.Prelude.{◌≡◌, ◌<◌, ◌≤◌};
ghost use Rattle.zy_rx.specs.Flow.{home_of};

use std::marker::Model;

/// The home core of each of the 128 flow groups. Contracts see it as the number of cores.
#[derive(Drop)]
pub struct FlowTable {
    cores: u32,
}

impl Model for FlowTable {
    ghost use Rattle.std.specs.Prelude.{ℕ, ◌≤◌};

    ghost Value = { ℕ };

    ghost view = { λ t. t.cores };

    ghost invariant = { λ t. 1 ≤ t.cores };
}

impl FlowTable {
    /// Deals the flow groups to `cores` cores.
    pub fn new(cores: u32) -> FlowTable
        requires some { 1 ≤ cores }
        requires few { cores ≤ 64 }
        ensures value { result ≡ cores }
    {
        FlowTable { cores }
    }

    /// Returns the home core of a connection.
    pub fn home_of(&self, conn: u32) -> u32
        ensures value { result ≡ home_of self.now conn }
        ensures limit { result < self.now }
    {
        conn % 128 % self.cores
    }
}
