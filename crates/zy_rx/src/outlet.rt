//! The end of a ring that items are taken from, and both ends together.
ghost use Rattle.std.specs.Prelude.{◌≡◌, ◌+◌, ◌<◌, ◌≤◌, [], ◌∷◌, ◌++◌, ◌↔◌, length, IsTrue, IfSome, IfNone, IsSome};
ghost use Rattle.std.specs.Prelude.{IfOk};
ghost use Rattle.zy_rx.specs.Ring.{IsFirstKnown, HasAllFree, offering, taking};

use crate::inlet::RingInlet;
use crate::rx::Rx;
use rtrb::{Consumer, RingBuffer};
use std::alloc::Global;
use std::marker::Model;
use zy_base::NoMemory;

/// The end of a receive ring that items are taken from.
pub type Outlet = RingOutlet<Rx>;

/// The end of a ring that items are taken from. Contracts see which ring it is of, the items taken,
/// and those that it knows.
#[derive(Drop)]
pub struct RingOutlet<T> {
    consumer: Consumer<T>,
}

impl<T> Model for RingOutlet<T> {
    ghost use Rattle.rtrb.specs.Ring.{received, known_items, consumer_capacity};
    ghost use Rattle.zy_rx.specs.Ring.{RingOutlet as Taken, taking, ring_named};

    ghost Value = { Taken T };

    ghost view = { λ o. taking (ring_named o.consumer.end.words o.consumer.end.slots o.consumer.end.names
        (consumer_capacity o.consumer)) (received o.consumer) (known_items o.consumer) };
}

impl<T> RingOutlet<T> {
    /// Takes the next item. It is `None` if and only if this end knew no item after its look.
    pub fn take(&mut self) -> Option<T>
        ensures taken { IfSome result (λ item. self.new.taken ≡ self.old.taken ++ item ∷ []) }
        ensures first { IfSome result (λ item. IsFirstKnown item self.old.known self.new.known) }
        ensures none { IfNone result ((self.new.taken ≡ self.old.taken) × (self.new.known ≡ [])) }
        ensures succeeds { 0 < length self.old.known → IsSome result }
        ensures kept { self.new.ring ≡ self.old.ring }
    {
        match self.consumer.pop() {
            Ok(item) => Some(item),
            Err(_) => None,
        }
    }

    /// Returns the number of items that this end knows, without a look.
    pub fn known(&self) -> usize
        ensures value { result ≡ length self.now.known }
    {
        self.consumer.cached_slots()
    }

    /// Looks for items, and says whether this end then knows none.
    pub fn is_empty(&mut self) -> bool
        ensures value { IsTrue result ↔ (length self.new.known ≡ 0) }
        ensures outlet { self.new ≡ record self.old { known = self.new.known } }
    {
        self.consumer.is_empty()
    }

    /// Takes the next item, which this end knows.
    pub fn take_known(&mut self) -> T
        requires some { 0 < length self.old.known }
        ensures taken { self.new.taken ≡ self.old.taken ++ result ∷ [] }
        ensures known { self.old.known ≡ result ∷ self.new.known }
        ensures kept { self.new.ring ≡ self.old.ring }
    {
        self.consumer.pop_known()
    }
}

/// Makes a ring of this capacity. All of its slots are free.
pub fn ring<T: Drop>(
    alloc: Global,
    capacity: usize,
) -> Result<(RingInlet<T>, RingOutlet<T>), NoMemory>
    requires some { 1 ≤ capacity }
    requires few { capacity ≤ 256 }
    ensures ok { IfOk result (λ ends. ends.0.ring ≡ ends.1.ring) }
    ensures capacity { IfOk result (λ ends. ends.0.ring.capacity ≡ capacity) }
    ensures inlet { IfOk result (λ ends. ends.0 ≡ offering ends.0.ring [] capacity) }
    ensures outlet { IfOk result (λ ends. ends.1 ≡ taking ends.1.ring [] []) }
{
    match RingBuffer::new(alloc, capacity) {
        Ok((producer, consumer)) => Ok((RingInlet { producer }, RingOutlet { consumer })),
        Err(_) => Err(NoMemory),
    }
}

/// Shows each end what the other did; the calling thread has both. After it the outlet knows every
/// item, and the inlet every free slot.
pub fn both_ends<T>(inlet: &mut RingInlet<T>, outlet: &mut RingOutlet<T>)
    requires within { inlet.old.ring ≡ outlet.old.ring }
    ensures all { inlet.new.sent ≡ outlet.new.taken ++ outlet.new.known }
    ensures room { HasAllFree inlet.new outlet.new }
    ensures inlet { inlet.new ≡ record inlet.old { free = inlet.new.free } }
    ensures outlet { outlet.new ≡ record outlet.old { known = outlet.new.known } }
{
    inlet.producer.slots_beside(&mut outlet.consumer);
    outlet.consumer.slots_beside(&mut inlet.producer);
}
