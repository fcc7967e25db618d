//! What a seat learns from each step on the table. These types are for proofs only.
ghost use Rattle.mc_store.specs.Steps.{has_looked, has_tried, has_put_back, taken_in, gave, newcomer};
ghost use Rattle.mc_store.specs.declared.store.view.View.TheVariants.{Spent};

use crate::store::view::View;
use atomic_table::{Join, Play, Split};
use mc_shard::Shard;
use std::marker::{Brand, PhantomData};

// A load of a word.
pub(crate) struct Looks;

impl Play<Shard, View> for Looks {
    ghost then = { has_looked };
}

// An exchange of an even word with the odd one above it.
pub(crate) struct Tries;

impl Play<Shard, View> for Tries {
    ghost then = { has_tried };
}

// The store that makes a word even again.
pub(crate) struct PutsBack;

impl Play<Shard, View> for PutsBack {
    ghost then = { λ step before found after. has_put_back before after };
}

// The root joins a pass.
pub(crate) struct TakesIn;

impl Join<View> for TakesIn {
    ghost both = { taken_in };

    ghost spent = { Spent };
}

// The connection that a pass is made for. Each call chooses it.
pub(crate) trait Named {
    ghost use Rattle.std.specs.Prelude.{ℕ};

    ghost conn: { ℕ };
}

impl Named for Brand {
    ghost conn = { 0 };
}

// The root gives a pass.
pub(crate) struct Gives<N> {
    marker: PhantomData<N>,
}

impl<N: Named> Split<View> for Gives<N> {
    ghost left = { gave N.conn };

    ghost right = { newcomer N.conn };
}
