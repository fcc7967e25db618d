//! A pass on the store: the calls of one connection.
ghost use Rattle.std.specs.Prelude.{◌≡◌, length};

use crate::store::view::View;
use atomic_table::Badge;
use std::marker::Model;

/// The right to make the calls of one connection. It has no part of the table, so it may travel
/// with its connection. Contracts see the table, the connection, and its calls so far with their
/// replies.
#[derive(Drop)]
pub struct Pass {
    pub(crate) conn: u32,
    pub(crate) count: u64,
    // The stamp of the last call, 0 without calls.
    pub(crate) last: u64,
    pub(crate) badge: Badge<View>,
}

impl Model for Pass {
    ghost use Rattle.mc_store.specs.Pass.{Passed, passed};
    ghost use Rattle.mc_store.specs.View.{calls_in, trace_in, IsPass};

    ghost Value = { Passed };

    ghost view = { λ p. passed p.badge.table_id p.conn (calls_in p.badge.views) (trace_in p.badge.views) };

    ghost invariant = { λ p. IsPass p.conn p.count p.last p.badge.views };
}

impl Pass {
    /// Returns the connection.
    pub fn conn(&self) -> u32
        ensures value { result ≡ self.now.conn }
    {
        self.conn
    }

    /// Returns the number of its calls.
    pub fn count(&self) -> u64
        ensures value { result ≡ length self.now.calls }
    {
        self.count
    }
}
