//! Publishing, claiming and giving back. None of these calls takes memory or waits.
ghost use Rattle.std.specs.Prelude.{◌≡◌, ◌^◌, ◌<◌, true, Some};
ghost use Rattle.zy_table.specs.Member.{is_in};
ghost use Rattle.zy_shuffle.specs.Hand.{emptied, marked};
ghost use Rattle.zy_shuffle.specs.HomeRole.{IsActive};
ghost use Rattle.zy_shuffle.specs.Pass.{Claimed, IfTook, after_publish, after_give_back};
ghost use Rattle.zy_shuffle.specs.Pass.{PublishMakes, ClaimMakes};
ghost use Rattle.zy_shuffle.specs.Run.{Makes, give_back_of, was_held};
ghost use Rattle.zy_shuffle.specs.PassSeat.{Within, IsCorePass, IsBrought};
ghost use Rattle.zy_shuffle.specs.PassSeat.{ClaimedBy, ClaimKeepsMark};

use super::plays::{
    Claims, Fronts, GivesBack, Placing, Publishes, SeesCell, SeesHead, SeesTail, StoresCell,
};
use super::view::View;
use super::{CELLS, CorePass, HEAD, HomePass, Ring, TAIL};
use crate::claim::Claim;
use crate::marked::{Marked, Publishing, WasHeld};
use atomic_table::Seat;
use std::marker::Brand;

impl<T: Marked> Ring<T> {
    /// Puts the place, with its block, at the end of the queue. It cannot fail. In the run of the
    /// ownership machine this settles the connection, as one that was held, or is its first
    /// arrival.
    pub fn publish(&self, home: &mut HomePass<T>, place: u32, block: T)
        requires within { home.old.table ≡ self.now.id }
        requires hand { is_in place home.old.hand ≡ true }
        requires few { home.old.count < 2 ^ 63 }
        requires label { T.label block ≡ home.old.label }
        ensures value { home.new ≡ after_publish place block home.old home.new.trace }
        ensures event { PublishMakes was_held T.mark place home.old home.new }
    {
        self.publish_as::<WasHeld>(home, place, block);
    }

    /// Publishes as `publish`. `B` says for contracts what the connection was before: `WasIdle` or
    /// `WasHeld`.
    pub fn publish_as<B: Publishing>(&self, home: &mut HomePass<T>, place: u32, block: T)
        requires within { home.old.table ≡ self.now.id }
        requires hand { is_in place home.old.hand ≡ true }
        requires few { home.old.count < 2 ^ 63 }
        requires label { T.label block ≡ home.old.label }
        ensures value { home.new ≡ after_publish place block home.old home.new.trace }
        ensures event { PublishMakes B.before T.mark place home.old home.new }
    {
        let words = &self.table.shared;
        let at = (home.tail % self.places as u64) as usize;
        words.store::<StoresCell>(&mut home.seat, CELLS + at, place as u64);
        let old = words.exchange(&mut home.seat, place as usize, Some(block));
        let None = old else { unreachable!() };
        words.store::<Publishes<B>>(&mut home.seat, TAIL, home.tail + 1);
        home.tail += 1;
    }

    /// Takes the first place of the queue into the hand of the pass, with its block. It loads the
    /// head, then the tail, then the cell, and makes one compare and exchange of the head.
    pub fn claim(&self, pass: &mut CorePass<T>) -> Claim<T>
        requires within { pass.old.table ≡ self.now.id }
        ensures value { Claimed T.mark T.label self.now.places pass.old pass.new result }
        ensures event { ClaimMakes pass.old.trace pass.new.trace result }
    {
        match self.claim_at(&mut pass.seat) {
            Claim::Took { place, block } => {
                pass.front = Some(place);
                Claim::Took { place, block }
            }
            other => other,
        }
    }

    /// Claims as `claim`, for the home. The block has the mark with which the home published it.
    pub fn claim_home(&self, home: &mut HomePass<T>) -> Claim<T>
        requires within { home.old.table ≡ self.now.id }
        ensures value { Claimed T.mark T.label self.now.places home.old home.new result }
        ensures event { ClaimMakes home.old.trace home.new.trace result }
        ensures kept { IfTook result (λ p b. marked T.mark p home.old.kept ≡ Some (T.mark b)) }
    {
        self.claim_at(&mut home.seat)
    }

    /// Puts back the block of a place that this pass claimed, and rings the place's doorbell. It
    /// cannot fail. If the place is not the one that was claimed last, this takes one more load.
    pub fn give_back(&self, pass: &mut CorePass<T>, place: u32, block: T)
        requires within { pass.old.table ≡ self.now.id }
        requires hand { is_in place pass.old.hand ≡ true }
        requires label { T.label block ≡ pass.old.label }
        requires mark { marked T.mark place pass.old.kept ≡ Some (T.mark block) }
        ensures value { pass.new ≡ after_give_back place block pass.old pass.new.trace }
        ensures event { Makes (give_back_of place) pass.old.trace pass.new.trace }
    {
        self.give_back_as::<Brand>(pass, place, block)
    }

    // Claims by the seat of either kind of pass.
    fn claim_at(&self, seat: &mut Seat<Option<T>, View<T>>) -> Claim<T>
        requires within { seat.old.table_id ≡ self.now.id }
        requires hand { seat.old.me.1 ≡ emptied seat.old.me.0.hand }
        requires places { Within seat.old.table_id.slots seat.old.me.0.hand }
        requires active { IsActive seat.old.me.0.role }
        ensures same { (seat.new.table_id ≡ seat.old.table_id) × (seat.new.id ≡ seat.old.id) }
        ensures hand { seat.new.me.1 ≡ emptied seat.new.me.0.hand }
        ensures places { Within seat.new.table_id.slots seat.new.me.0.hand }
        ensures role { seat.new.me.0.role ≡ seat.old.me.0.role }
        ensures value { ClaimedBy T.mark T.label self.now seat.old.me seat.new.me result }
        ensures kept { ClaimKeepsMark T.mark seat.old.me result }
        ensures event { ClaimMakes seat.old.me.0.trace seat.new.me.0.trace result }
    {
        let words = &self.table.shared;
        let head = words.load::<SeesHead>(seat, HEAD);
        let tail = words.load::<SeesTail>(seat, TAIL);
        if tail == head {
            return Claim::Empty { at: head };
        }
        let at = (head % self.places as u64) as usize;
        let place = words.load::<SeesCell>(seat, CELLS + at);
        let found = words.compare_exchange::<Claims>(seat, HEAD, head, head + 1);
        if found != head {
            return Claim::Raced { saw: head, found };
        }
        let Some(block) = words.exchange(seat, place as usize, None) else {
            unreachable!()
        };
        Claim::Took {
            place: place as u32,
            block,
        }
    }

    // Gives back as `give_back`. `J` names the place for contracts, which a load of the head cannot
    // do.
    fn give_back_as<J: Placing>(&self, pass: &mut CorePass<T>, place: u32, block: T)
        requires picked { place ≡ J.place }
        requires within { pass.old.table ≡ self.now.id }
        requires hand { is_in place pass.old.hand ≡ true }
        requires label { T.label block ≡ pass.old.label }
        requires mark { marked T.mark place pass.old.kept ≡ Some (T.mark block) }
        ensures value { pass.new ≡ after_give_back place block pass.old pass.new.trace }
        ensures event { Makes (give_back_of place) pass.old.trace pass.new.trace }
    {
        let words = &self.table.shared;
        let front = pass.front;
        self.bring::<J>(&mut pass.seat, front, place);
        pass.front = None;
        let old = words.exchange(&mut pass.seat, place as usize, Some(block));
        let None = old else { unreachable!() };
        let word = CELLS + self.places as usize + (place / 64) as usize;
        words.fetch_or::<GivesBack>(&mut pass.seat, word, 1u64 << (place % 64));
    }

    // Brings the slot of the place to the front of those that the seat has taken, by a load if
    // another slot is in front.
    fn bring<J: Placing>(&self, seat: &mut Seat<Option<T>, View<T>>, front: Option<u32>, place: u32)
        requires picked { place ≡ J.place }
        requires within { seat.old.table_id ≡ self.now.id }
        requires pass { IsCorePass seat.old.table_id.slots front seat.old.me }
        requires hand { is_in place seat.old.me.0.hand ≡ true }
        ensures same { (seat.new.table_id ≡ seat.old.table_id) × (seat.new.id ≡ seat.old.id) }
        ensures value { IsBrought place seat.old.me seat.new.me }
    {
        if let Some(first) = front {
            if first == place {
                return;
            }
        }
        self.table.shared.load::<Fronts<J>>(seat, HEAD);
    }
}
