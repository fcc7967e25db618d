//! The root of a store, which gives the passes and takes them back.
use crate::store::view::View;
use atomic_table::Badge;
use std::marker::Model;

/// The root of a store. Contracts see the table, the connections whose passes it gave, and the
/// connections whose passes were joined, with their calls.
#[derive(Drop)]
pub struct Root {
    pub(crate) badge: Badge<View>,
}

impl Model for Root {
    ghost use Rattle.mc_store.specs.Pass.{Rooted, rooted};
    ghost use Rattle.mc_store.specs.View.{given_in, joined_in, IsRoot};

    ghost Value = { Rooted };

    ghost view = { λ r. rooted r.badge.table_id (given_in r.badge.views) (joined_in r.badge.views) };

    ghost invariant = { λ r. IsRoot r.badge.views };
}
