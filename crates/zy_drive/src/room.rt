//! The memory for driving on threads, all of which is taken before it begins.
ghost use Rattle.std.specs.Prelude.{◌≡◌, ◌≤◌, ◌<◌, ◌+◌, IfOk, vec_len, vec_capacity};
ghost use Rattle.zy_deal.specs.Deal.{lists_of, AreEmpty, HaveRoom};

use std::alloc::Global;
use zy_base::NoMemory;
use zy_deal::empty_groups;

// The groups of at most 64 threads, with room for the seat of each while threads run, and for each
// group when it is back.
#[derive(Drop)]
pub(crate) struct Room<T, S> {
    pub(crate) groups: Vec<Vec<T>>,
    pub(crate) seats: Vec<S>,
    pub(crate) back: Vec<Vec<T>>,
    ghost few: { vec_len groups ≤ 64 },
    ghost no_seat: { vec_len seats ≡ 0 },
    ghost none_back: { vec_len back ≡ 0 },
    ghost seats_fit: { vec_len groups ≤ vec_capacity seats },
    ghost back_fits: { vec_len groups ≤ vec_capacity back },
}

impl<T: Drop, S: Drop> Room<T, S> {
    // Makes empty groups, each with room for all items: one for each of `threads` threads, or for
    // each of `count` items if these are fewer.
    pub(crate) fn new(alloc: Global, count: usize, threads: usize) -> Result<Room<T, S>, NoMemory>
        requires some { (1 ≤ count) × (1 ≤ threads) }
        requires few { threads ≤ 64 }
        ensures groups { IfOk result (λ r. HaveRoom count r.groups.items × AreEmpty (lists_of r.groups.items)) }
        ensures some { IfOk result (λ r. 1 ≤ vec_len r.groups) }
    {
        let most = if threads < count { threads } else { count };
        let seats = Vec::with_capacity(alloc, most)?;
        let back = Vec::with_capacity(alloc, most)?;
        let groups = empty_groups(alloc, count, most)?;
        Ok(Room {
            groups,
            seats,
            back,
        })
    }
}
