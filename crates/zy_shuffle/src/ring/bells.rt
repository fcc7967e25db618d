//! Collecting, by the doorbells.
ghost use Rattle.std.specs.Prelude.{◌≡◌, ◌<◌, IfSome, Some};
ghost use Rattle.zy_shuffle.specs.Hand.{marked};
ghost use Rattle.zy_shuffle.specs.Word.{bell_words};
ghost use Rattle.zy_shuffle.specs.Pass.{Collected, CollectMakes};
ghost use Rattle.zy_shuffle.specs.PassSeat.{IsHomeAfter, CollectedBy, LookedBy, KeepsMark};

use super::plays::{Collects, SeesBells};
use super::view::View;
use super::{CELLS, HomePass, Ring};
use crate::marked::Marked;
use atomic_table::Seat;

impl<T: Marked> Ring<T> {
    /// Takes a place that was given back into the home's hand, with its block: that of the lowest
    /// bit of the first doorbell word that is not 0. It is `None` if and only if each doorbell
    /// word, loaded in this call, was 0.
    pub fn collect(&self, home: &mut HomePass<T>) -> Option<(u32, T)>
        requires within { home.old.table ≡ self.now.id }
        ensures value { Collected T.mark T.label self.now.places home.old home.new result }
        ensures event { CollectMakes home.old.trace home.new.trace result }
        ensures kept { IfSome result (λ x. marked T.mark x.0 home.old.kept ≡ Some (T.mark x.1)) }
    {
        self.collect_at(&mut home.seat)
    }

    // Looks at each doorbell word, until one has a bit.
    fn collect_at(&self, seat: &mut Seat<Option<T>, View<T>>) -> Option<(u32, T)>
        requires within { seat.old.table_id ≡ self.now.id }
        requires home { IsHomeAfter seat.old.table_id.slots seat.old.me seat.old.me }
        ensures same { (seat.new.table_id ≡ seat.old.table_id) × (seat.new.id ≡ seat.old.id) }
        ensures home { IsHomeAfter seat.new.table_id.slots seat.old.me seat.new.me }
        ensures value { CollectedBy T.mark T.label self.now seat.old.me seat.new.me result }
        ensures event { CollectMakes seat.old.me.0.trace seat.new.me.0.trace result }
        ensures kept { KeepsMark T.mark seat.old.me result }
    {
        let count = (self.places as usize + 63) / 64;
        for word in 0..count {
            if let Some(found) = self.look_at(seat, word) {
                return Some(found);
            }
        }
        None
    }

    // Looks at one doorbell word, and takes the block of its lowest bit.
    fn look_at(&self, seat: &mut Seat<Option<T>, View<T>>, word: usize) -> Option<(u32, T)>
        requires within { seat.old.table_id ≡ self.now.id }
        requires home { IsHomeAfter seat.old.table_id.slots seat.old.me seat.old.me }
        requires word { word < bell_words self.now.places }
        ensures same { (seat.new.table_id ≡ seat.old.table_id) × (seat.new.id ≡ seat.old.id) }
        ensures home { IsHomeAfter seat.new.table_id.slots seat.old.me seat.new.me }
        ensures value { LookedBy T.mark T.label self.now seat.old.me seat.new.me word result }
        ensures event { CollectMakes seat.old.me.0.trace seat.new.me.0.trace result }
        ensures kept { KeepsMark T.mark seat.old.me result }
    {
        let words = &self.table.shared;
        let index = CELLS + self.places as usize + word;
        let bits = words.load::<SeesBells>(seat, index);
        if bits == 0 {
            return None;
        }
        let low = bits.trailing_zeros();
        words.fetch_and::<Collects>(seat, index, !(1u64 << low));
        let place = word * 64 + low as usize;
        let old = words.exchange(seat, place, None);
        let Some(block) = old else { unreachable!() };
        Some((place as u32, block))
    }
}
