//! The ends of all receive rings that items are offered to.
ghost use Rattle.std.specs.Prelude.{◌≡◌, ◌<◌, ◌≤◌, length, true, false, Some, slice_get};
ghost use Rattle.std.specs.Prelude.{IfSome, IfNone};
ghost use Rattle.zy_rx.specs.declared.rx.Rx.TheVariants.{End};
ghost use Rattle.zy_rx.specs.Feed.{rings_of, sent_by, HasNoRoom, HasMet};
ghost use Rattle.zy_feed.specs.Feeding.{home_in, OffersTo};

use std::marker::Model;
use zy_rx::{FlowTable, Inlet, Outlet, Rx, both_ends};

/// The ends of all cores' receive rings that items are offered to. Contracts see it as the list of
/// them, by core.
#[derive(Drop)]
pub struct Inlets {
    flow: FlowTable,
    items: Vec<Inlet>,
}

impl Model for Inlets {
    ghost use Rattle.std.specs.Prelude.{List, ◌≡◌, ◌≤◌, length};
    ghost use Rattle.zy_rx.specs.Ring.{Offering};

    ghost Value = { List Offering };

    ghost view = { λ i. i.items.items };

    ghost invariant = { λ i. (i.flow ≡ length i.items.items)
        × (1 ≤ length i.items.items) × (length i.items.items ≤ 64) };
}

impl Inlets {
    /// Makes the list of each core's inlet, by core.
    pub fn new(items: Vec<Inlet>) -> Inlets
        requires some { 1 ≤ length items.items }
        requires few { length items.items ≤ 64 }
        ensures value { result ≡ items.items }
    {
        Inlets {
            flow: FlowTable::new(items.len() as u32),
            items,
        }
    }

    /// Returns the inlet of each core, by core. Takes no memory.
    pub fn into_vec(self) -> Vec<Inlet>
        ensures value { result.items ≡ self }
    {
        let Inlets { flow: _, items } = self;
        items
    }

    // Returns the number of cores.
    pub(crate) fn count(&self) -> u32
        ensures value { result ≡ length self.now }
        ensures limit { result ≤ 64 }
    {
        self.items.len() as u32
    }

    // Offers an item to the core that it is for. It is handed back if the inlet of that core knows
    // no free slot.
    #[inline(always)]
    pub(crate) fn deliver(&mut self, item: Rx) -> Option<Rx>
        ensures ok { IfNone result
            (OffersTo (home_in (length self.old) item) item self.old self.new) }
        ensures returned { IfSome result (λ back. back ≡ item) }
        ensures kept { IfSome result (λ _. sent_by self.new ≡ sent_by self.old) }
        ensures full { IfSome result (λ _. HasNoRoom self.new) }
        ensures rings { rings_of self.new ≡ rings_of self.old }
    {
        let core = self.home_of(&item);
        self.offer(core, item)
    }

    // Returns the core that an item is for.
    fn home_of(&self, item: &Rx) -> u32
        ensures value { result ≡ home_in (length self.now) item.now }
        ensures within { result < length self.now }
    {
        match item {
            Rx::Segment { conn, .. } => self.flow.home_of(*conn),
            Rx::Close { conn } => self.flow.home_of(*conn),
            Rx::End => 0,
        }
    }

    // Offers an item to this core.
    pub(crate) fn offer(&mut self, core: u32, item: Rx) -> Option<Rx>
        requires within { core < length self.old }
        ensures ok { IfNone result (OffersTo core item self.old self.new) }
        ensures returned { IfSome result (λ back. back ≡ item) }
        ensures kept { IfSome result (λ _. sent_by self.new ≡ sent_by self.old) }
        ensures full { IfSome result (λ _. HasNoRoom self.new) }
        ensures rings { rings_of self.new ≡ rings_of self.old }
    {
        self.items[core as usize].offer(item)
    }

    // Offers the end to this core. Returns whether it was accepted.
    pub(crate) fn offer_end(&mut self, core: u32) -> bool
        requires within { core < length self.old }
        ensures ok { result ≡ true → OffersTo core End self.old self.new }
        ensures kept { result ≡ false → sent_by self.new ≡ sent_by self.old }
        ensures full { result ≡ false → HasNoRoom self.new }
        ensures rings { rings_of self.new ≡ rings_of self.old }
    {
        self.offer(core, Rx::End).is_none()
    }

    // Shows the inlet of this core and its outlet what the other end did.
    pub(crate) fn meet(&mut self, core: u32, outlet: &mut Outlet)
        requires ring { slice_get (rings_of self.old) core ≡ Some outlet.old.ring }
        ensures all { HasMet core self.new outlet.new }
        ensures outlet { outlet.new ≡ record outlet.old { known = outlet.new.known } }
        ensures kept { sent_by self.new ≡ sent_by self.old }
        ensures rings { rings_of self.new ≡ rings_of self.old }
    {
        both_ends(&mut self.items[core as usize], outlet);
    }
}
