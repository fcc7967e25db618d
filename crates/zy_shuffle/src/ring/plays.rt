//! What a seat learns from each kind of step, and the event of the ownership machine that the step
//! is. These types are for contracts only: no value of them is made.
ghost use Rattle.zy_shuffle.specs.View.{spent};
ghost use Rattle.zy_shuffle.specs.Step.{saw_head, saw_tail, saw_cell, saw_bells, stored_cell};
ghost use Rattle.zy_shuffle.specs.Step.{published, claimed, collected, fronted, gave};
ghost use Rattle.zy_shuffle.specs.Step.{named_as, closed, splitting, newcomer, taken_in};

use super::view::View;
use crate::marked::{Label, Marked, Publishing};
use atomic_table::{Join, Play, Split};
use std::marker::{Brand, PhantomData};

/// A load of the head: no event.
pub struct SeesHead;

impl<T> Play<Option<T>, View<T>> for SeesHead {
    ghost then = { saw_head };
}

/// A load of the tail: no event.
pub struct SeesTail;

impl<T> Play<Option<T>, View<T>> for SeesTail {
    ghost then = { saw_tail };
}

/// A load of a cell: no event.
pub struct SeesCell;

impl<T> Play<Option<T>, View<T>> for SeesCell {
    ghost then = { saw_cell };
}

/// A compare and exchange of the head: a claim if it succeeds, and no event if it fails.
pub struct Claims;

impl<T: Marked> Play<Option<T>, View<T>> for Claims {
    ghost then = { claimed T.mark T.label };
}

/// A store of a cell that is not published yet: no event.
pub struct StoresCell;

impl<T> Play<Option<T>, View<T>> for StoresCell {
    ghost then = { λ st m r n. stored_cell st m n };
}

/// A store of the tail: a request arrives at a connection that was idle, or a connection that was
/// held is settled, with a request left.
pub struct Publishes<B> {
    marker: PhantomData<B>,
}

impl<T: Marked, B: Publishing> Play<Option<T>, View<T>> for Publishes<B> {
    ghost then = { λ st m r n. published B.before T.mark m n };
}

/// The place that a call names for contracts.
pub trait Placing {
    ghost use Rattle.std.specs.Prelude.{ℕ};

    ghost place: { ℕ };
}

impl Placing for Brand {
    ghost place = { 0 };
}

/// A load of the head by which a seat brings the slot of a place to its front: no event.
pub struct Fronts<J> {
    marker: PhantomData<J>,
}

impl<T, J: Placing> Play<Option<T>, View<T>> for Fronts<J> {
    ghost then = { λ st m r n. fronted J.place m r n };
}

/// A fetch-or of a doorbell bit: a core gives a connection back.
pub struct GivesBack;

impl<T> Play<Option<T>, View<T>> for GivesBack {
    ghost then = { λ st m r n. gave m n };
}

/// A load of a doorbell word: no event.
pub struct SeesBells;

impl<T> Play<Option<T>, View<T>> for SeesBells {
    ghost then = { saw_bells };
}

/// A fetch-and of a doorbell bit: the home collects a connection.
pub struct Collects;

impl<T: Marked> Play<Option<T>, View<T>> for Collects {
    ghost then = { λ st m r n. collected T.mark T.label st m n };
}

/// The first load of a ring, which names its label and takes all slots: no event.
pub struct Names<L> {
    marker: PhantomData<L>,
}

impl<T, L: Label> Play<Option<T>, View<T>> for Names<L> {
    ghost then = { λ st m r n. named_as L.label st n };
}

/// The last load of a ring, which brings the slots of the home's hand back to the table: no event.
pub struct Closes;

impl<T> Play<Option<T>, View<T>> for Closes {
    ghost then = { λ st m r n. closed m n };
}

/// The home's seat gives a pass.
pub struct Splits;

impl<T> Split<View<T>> for Splits {
    ghost left = { splitting };

    ghost right = { newcomer };
}

/// The home's seat joins a pass.
pub struct Joins;

impl<T> Join<View<T>> for Joins {
    ghost both = { taken_in };

    ghost spent = { spent };
}
