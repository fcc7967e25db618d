//! The end of a ring that items are offered to.
ghost use Rattle.std.specs.Prelude.{◌≡◌, ◌+◌, ◌<◌, ◌≤◌, [], ◌∷◌, ◌++◌, IfSome, IfNone, IsNone, true, false};

use crate::rx::Rx;
use rtrb::Producer;
use std::marker::Model;

/// The end of a receive ring that items are offered to.
pub type Inlet = RingInlet<Rx>;

/// The end of a ring that items are offered to, also while another thread holds the other end.
/// Contracts see which ring it is of, the items offered and not handed back, and how many free slots
/// it knows.
#[derive(Drop)]
pub struct RingInlet<T> {
    pub(crate) producer: Producer<T>,
}

impl<T> Model for RingInlet<T> {
    ghost use Rattle.rtrb.specs.Ring.{sent, known_free, producer_capacity};
    ghost use Rattle.zy_rx.specs.Ring.{RingInlet as Offered, offering, ring_named};

    ghost Value = { Offered T };

    ghost view = { λ i. offering (ring_named i.producer.end.words i.producer.end.slots i.producer.end.names
        (producer_capacity i.producer)) (sent i.producer) (known_free i.producer) };
}

impl<T> RingInlet<T> {
    /// Appends the item to what was sent. It is handed back if and only if this end knew no free
    /// slot after its look.
    pub fn offer(&mut self, item: T) -> Option<T>
        ensures ok { IfNone result (self.new.sent ≡ self.old.sent ++ item ∷ []) }
        ensures few { IfNone result (self.old.free ≤ self.new.free + 1) }
        ensures full { IfSome result (λ _. self.new.free ≡ 0) }
        ensures returned { IfSome result (λ back. (back ≡ item) × (self.new.sent ≡ self.old.sent)) }
        ensures succeeds { 0 < self.old.free → IsNone result }
        ensures kept { self.new.ring ≡ self.old.ring }
    {
        if !self.has_room() {
            return Some(item);
        }
        self.offer_known(item);
        None
    }

    /// Checks whether this end knows a free slot; if it knew none, it looks.
    #[inline(always)]
    pub fn has_room(&mut self) -> bool
        ensures some { result ≡ true → 0 < self.new.free }
        ensures none { result ≡ false → self.new.free ≡ 0 }
        ensures more { self.old.free ≤ self.new.free }
        ensures kept { (self.new.ring ≡ self.old.ring) × (self.new.sent ≡ self.old.sent) }
    {
        !self.producer.is_full()
    }

    /// Appends the item to what was sent. This end knows a free slot.
    #[inline(always)]
    pub fn offer_known(&mut self, item: T)
        requires room { 0 < self.old.free }
        ensures sent { self.new.sent ≡ self.old.sent ++ item ∷ [] }
        ensures few { self.old.free ≤ self.new.free + 1 }
        ensures kept { self.new.ring ≡ self.old.ring }
    {
        self.producer.push_reserved(item);
    }
}
