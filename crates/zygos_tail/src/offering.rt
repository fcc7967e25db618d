//! Offers to the receive rings of the cores.
ghost use Rattle.std.specs.Prelude.{◌≡◌, ◌<◌, length, Some, IfSome, IfNone, slice_get};
ghost use Rattle.zy_rx.specs.Feed.{rings_of, sent_by, HasNoRoom, HasMet};
ghost use Rattle.zy_feed.specs.Feeding.{OffersTo};

use zy_rx::{Inlet, Outlet, Rx, both_ends};

/// Offers an item to this core. It is handed back if that core's inlet then knew no free slot.
pub(crate) fn offer(inlets: &mut Vec<Inlet>, core: usize, item: Rx) -> Option<Rx>
    requires within { core < length inlets.old.items }
    ensures ok { IfNone result (OffersTo core item inlets.old.items inlets.new.items) }
    ensures returned { IfSome result (λ back. back ≡ item) }
    ensures kept { IfSome result (λ _. sent_by inlets.new.items ≡ sent_by inlets.old.items) }
    ensures full { IfSome result (λ _. HasNoRoom inlets.new.items) }
    ensures rings { rings_of inlets.new.items ≡ rings_of inlets.old.items }
{
    inlets[core].offer(item)
}

/// Shows the inlet of this core and its outlet what the other end did.
pub(crate) fn meet(inlets: &mut Vec<Inlet>, core: u32, outlet: &mut Outlet)
    requires ring { slice_get (rings_of inlets.old.items) core ≡ Some outlet.old.ring }
    ensures all { HasMet core inlets.new.items outlet.new }
    ensures outlet { outlet.new ≡ record outlet.old { known = outlet.new.known } }
    ensures kept { sent_by inlets.new.items ≡ sent_by inlets.old.items }
    ensures rings { rings_of inlets.new.items ≡ rings_of inlets.old.items }
{
    both_ends(&mut inlets[core as usize], outlet);
}
