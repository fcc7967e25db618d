//! Feeders offer items to the cores.
ghost use Rattle.std.specs.Prelude.{◌≡◌, ◌≢◌, ◌↔◌, ◌++◌, List, Some, slice_get};
ghost use Rattle.zy_rx.specs.Ring.{Offering};
ghost use Rattle.zy_rx.specs.Feed.{rings_of, sent_by, HasOffered, HasNoRoom, HasMet};

use crate::outlet::Outlet;

/// The result of a step of a feeder.
#[derive(Clone, Copy, Drop, PartialEq, Eq)]
pub enum Fed {
    /// One item was offered to one core.
    Offered,
    /// An inlet knows no free slot. The item was handed back, and is kept for the next step.
    Full,
    /// All items were offered.
    Ended,
    /// The feeder broke: no more items can be offered.
    Broken,
}

/// Offers items to the cores, one item a step.
pub trait Feeder {
    /// The ends to which items are offered, by core.
    ghost inlets: { Self → List Offering };

    /// All items were offered.
    ghost ended: { Self → Type 0 };

    /// It broke, and can offer no more items.
    ghost broken: { Self → Type 0 };

    /// The second state comes at or after the first.
    ghost leads: { Self → Self → Type 0 };

    /// Makes one step. Before it the feeder has neither ended nor broken.
    fn step(&mut self) -> Fed
        requires fresh { ¬ ended self.old × ¬ broken self.old }
        ensures offered { result ≡ Fed.Offered → HasOffered (inlets self.old) (inlets self.new) }
        ensures kept { result ≢ Fed.Offered
            → sent_by (inlets self.new) ≡ sent_by (inlets self.old) }
        ensures full { result ≡ Fed.Full → HasNoRoom (inlets self.new) }
        ensures ended { (result ≡ Fed.Ended) ↔ ended self.new }
        ensures broken { (result ≡ Fed.Broken) ↔ broken self.new }
        ensures rings { rings_of (inlets self.new) ≡ rings_of (inlets self.old) }
        ensures leads { leads self.old self.new };

    /// Checks whether the next step may have to wait for what it offers. This is a hint, of which
    /// no clause speaks; it is true unless a feeder says otherwise.
    fn may_wait(&self) -> bool {
        true
    }

    /// Shows the inlet of this core, and its outlet, what the other did. It offers and takes no
    /// item, and takes no memory.
    fn meet(&mut self, core: u32, outlet: &mut Outlet)
        requires ring { slice_get (rings_of (inlets self.old)) core ≡ Some outlet.old.ring }
        ensures all { HasMet core (inlets self.new) outlet.new }
        ensures outlet { outlet.new ≡ record outlet.old { known = outlet.new.known } }
        ensures kept { sent_by (inlets self.new) ≡ sent_by (inlets self.old) }
        ensures rings { rings_of (inlets self.new) ≡ rings_of (inlets self.old) }
        ensures ended { (ended self.new ↔ ended self.old) × (broken self.new ↔ broken self.old) }
        ensures leads { leads self.old self.new };

    // Each state comes at or after itself.
    ghost leads_same: { (f : Self) → leads f f };

    /// A state that comes after a later one comes after the earlier one too.
    ghost leads_on: { (f g h : Self) → leads f g → leads g h → leads f h };
}
