//! How a ring is made and closed, and how passes are given and joined.
ghost use Rattle.std.specs.Prelude.{◌≡◌, ◌+◌, ◌-◌, ◌≤◌, IfOk, IsOk, IfErr, [], ⊤};
ghost use Rattle.zy_shuffle.specs.View.{untraced};
ghost use Rattle.zy_shuffle.specs.Pass.{AreLeft, HasAll, after_join, newly_held, newly_given};

use super::plays::{Closes, Joins, Names, Splits};
use super::view::View;
use super::{CELLS, CorePass, HEAD, HomePass, Ring, Shuffles};
use crate::left::Left;
use crate::marked::{Label, Marked};
use atomic_table::Table;
use std::alloc::Global;
use zy_base::NoMemory;

impl<T: Marked> Ring<T> {
    /// Makes a ring with `places` places, all in the home's hand, and an empty queue. The label of
    /// the ring is that of `L`.
    pub fn new<L: Label>(alloc: Global, places: u32) -> Result<(Ring<T>, HomePass<T>), NoMemory>
        requires few { places ≤ 4096 }
        ensures count { IfOk result (λ made. made.0.places ≡ places) }
        ensures value { IfOk result (λ made. made.1 ≡ newly_held made.0.id L.label places) }
        ensures hand { IfOk result (λ made. HasAll places made.1.hand) }
    {
        let count = places as usize;
        let Ok(words) = Vec::from_elem(alloc, 0u64, CELLS + count + (count + 63) / 64) else {
            return Err(NoMemory);
        };
        let cells = words.as_slice();
        let made = Table::<Option<T>, View<T>, (), Shuffles, Global>::vacant(
            alloc,
            cells,
            count,
            &(),
        );
        let Ok((table, mut seat)) = made else {
            return Err(NoMemory);
        };
        table.shared.load::<Names<L>>(&mut seat, HEAD);
        let ring = Ring {
            table,
            places,
            alloc,
        };
        Ok((ring, HomePass { seat, tail: 0 }))
    }

    /// Makes a pass with an empty hand, for another core. This takes no memory, and cannot fail.
    pub fn split(&self, home: &mut HomePass<T>) -> Result<CorePass<T>, NoMemory>
        requires within { home.old.table ≡ self.now.id }
        ensures succeeds { IsOk result }
        ensures value { IfOk result (λ pass. pass ≡ newly_given home.old) }
        ensures ok { home.new ≡ record home.old { out = home.old.out + 1 } }
    {
        Ok(CorePass {
            seat: self.table.shared.split_seat::<Splits>(&mut home.seat),
            front: None,
        })
    }

    /// Joins a pass whose hand is empty. It cannot fail.
    pub fn join(&self, home: &mut HomePass<T>, pass: CorePass<T>)
        requires within { (home.old.table ≡ self.now.id) × (pass.table ≡ self.now.id) }
        requires empty { pass.hand ≡ [] }
        ensures value { home.new ≡ after_join home.old pass.trace }
    {
        let CorePass { seat, front: _ } = pass;
        self.table.shared.join_seat::<Joins>(&mut home.seat, seat);
    }

    /// Returns the blocks that are still in the table, once every pass was joined. After `NoMemory`
    /// ring and home are handed back as they were.
    pub fn close(self, home: HomePass<T>) -> Result<Left<T>, (Ring<T>, HomePass<T>)>
        requires within { home.table ≡ self.id }
        requires joined { home.out ≡ 0 }
        ensures value { IfOk result (λ left. AreLeft T.mark T.label self.places home left) }
        ensures returned { IfErr result (λ both. (both.0 ≡ self) × (both.1 ≡ home)) }
    {
        let Ring {
            table,
            places,
            alloc,
        } = self;
        let Ok(items) = Vec::with_capacity(alloc, places as usize) else {
            let ring = Ring {
                table,
                places,
                alloc,
            };
            return Err((ring, home));
        };
        let HomePass { mut seat, tail: _ } = home;
        table.shared.load::<Closes>(&mut seat, HEAD);
        let closed = table.close_with(seat);
        Ok(Left::from_slots(closed, items))
    }
}
