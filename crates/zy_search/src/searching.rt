//! A search for an order of the calls at a key, with going back (Wing and Gong, "Testing and
//! verifying concurrent objects", 1993).

use crate::decided::Decided;
use crate::deciding::decide;
use crate::held::{Held, Sight};
use crate::search::Search;
use std::alloc::Global;
use zy_base::NoMemory;
use zy_refute::Observed;
use zy_sources::{Calls, at, changes, end_of, small};

/// The calls at a key, by their sendings, and for each call of the recording its rank: of two that can be
/// next, the one with the lower rank is tried first.
#[derive(Clone, Copy)]
pub struct Listed<'a> {
    pub calls: Calls<'a>,
    pub list: &'a [u32],
    pub ranks: &'a [u32],
    /// The item may be lost between any two calls.
    pub forget: bool,
    /// What the key has before them, and the call that made it, or `NONE`.
    pub held: &'a Held,
    pub maker: u32,
    /// Those that ended by this moment must be made.
    pub until: u64,
}

// Where the search may go back to: how many calls were made, and the rank at which the next choice
// begins.
#[derive(Clone, Copy)]
struct Branch {
    made: usize,
    from: u32,
}

// What is chosen: the offset in the list, and whether there is no other choice worth trying.
#[derive(Clone, Copy)]
struct Chosen {
    offset: u32,
    only: bool,
    rank: u32,
    decided: Decided,
}

// The call that is chosen, and how many were looked at.
#[derive(Clone, Copy)]
struct Looked {
    best: Option<Chosen>,
    count: usize,
}

// How many calls that are not made are looked at for the next one.
const WINDOW: usize = 256;

/// Looks for an order of the calls of a list. It looks at no more than `most` calls for that, and at `left`,
/// from which it takes the number. All sure calls are in the order that is returned; none is if there is no
/// such order, or it was not found.
/// If the sources are `kept`, no item goes before those are made that only it can have been shown to.
/// May answer `NoMemory`.
pub fn look_for(
    alloc: Global,
    listed: Listed<'_>,
    kept: bool,
    most: usize,
    left: &mut usize,
) -> Result<Option<Vec<u32>>, NoMemory> {
    let mut search = Search::begin(alloc, listed, kept)?;
    match search.run(alloc, listed, most.min(*left)) {
        Ok(count) => *left = left.saturating_sub(count),
        Err(refused) => {
            drop(search);
            return Err(refused);
        }
    }
    if search.left != 0 {
        drop(search);
        return Ok(None);
    }
    let order = search.calls(alloc, listed);
    drop(search);
    Ok(Some(order?))
}

impl Listed<'_> {
    // Checks whether a call must be made.
    pub(crate) fn is_wanted(self, call: u32) -> bool {
        match self.calls.observed.get(call as usize) {
            Some(one) => one.sure && end_of(one) <= self.until,
            None => false,
        }
    }

    // Returns how many calls must be made.
    pub(crate) fn count_of_wanted(self) -> usize {
        let mut count: usize = 0;
        for call in self.list {
            if self.is_wanted(*call) {
                count = count.saturating_add(1);
            }
        }
        count
    }
}

impl Search {
    // Returns the calls that are made.
    fn calls(&self, alloc: Global, listed: Listed<'_>) -> Result<Vec<u32>, NoMemory> {
        let mut calls = Vec::with_capacity(alloc, self.order.len())?;
        for offset in &self.order {
            calls.push(at(listed.list, *offset))?;
        }
        Ok(calls)
    }

    // Makes calls and goes back, until all are made or no more may be looked at. Returns how many were
    // looked at.
    fn run(&mut self, alloc: Global, listed: Listed<'_>, most: usize) -> Result<usize, NoMemory> {
        let mut branches: Vec<Branch> = Vec::new(alloc);
        let ran = self.run_with(alloc, &mut branches, listed, most);
        drop(branches);
        ran
    }

    // The same, with a list of where the search may go back to.
    fn run_with(
        &mut self,
        alloc: Global,
        branches: &mut Vec<Branch>,
        listed: Listed<'_>,
        most: usize,
    ) -> Result<usize, NoMemory> {
        let mut from = 0;
        let mut count: usize = 0;
        for _ in 0..most {
            if self.left == 0 || most <= count {
                break;
            }
            let looked = self.choice(listed, from);
            count = count.saturating_add(looked.count);
            match (looked.best, branches.last().copied()) {
                (Some(chosen), _) => {
                    if !chosen.only {
                        branches.push(Branch {
                            made: self.order.len(),
                            from: chosen.rank.saturating_add(1),
                        })?;
                    }
                    self.make(alloc, listed, chosen.offset, chosen.decided)?;
                    from = 0;
                }
                (None, Some(branch)) => {
                    let _ = branches.pop();
                    self.go_back(listed, branch.made);
                    from = branch.from;
                }
                (None, None) => break,
            }
        }
        Ok(count)
    }

    // The call that is next: one that changes nothing if there is one, else the first by rank.
    fn choice(&self, listed: Listed<'_>, from: u32) -> Looked {
        let mut looked = Looked {
            best: None,
            count: 1,
        };
        let mut until = u64::MAX;
        let mut offset = self.chain.after(small(listed.list.len()));
        for _ in 0..WINDOW {
            let call = at(listed.list, offset);
            let Some(one) = listed.calls.observed.get(call as usize) else {
                break;
            };
            if until <= one.sent {
                break;
            }
            looked.count = looked.count.saturating_add(1);
            until = until.min(if self.kept {
                listed.calls.due(call)
            } else {
                end_of(one)
            });
            let late = self.kept && until <= listed.calls.since(call);
            if !late && !self.is_blocked(offset) {
                looked.best = better(looked.best, self.chance(listed, offset, one, from));
                if let Some(best) = looked.best
                    && best.only
                {
                    break;
                }
            }
            offset = self.chain.after(offset);
        }
        looked
    }

    // A call as the next one, if it can be.
    fn chance(&self, listed: Listed<'_>, offset: u32, one: &Observed, from: u32) -> Option<Chosen> {
        let rank = at(listed.ranks, at(listed.list, offset));
        let changing = changes(one);
        if (changing && rank < from) || self.needs.is_other(self.maker, offset) {
            return None;
        }
        let Some(decided) = decide(self.held.sight(), one, true, listed.forget) else {
            return None;
        };
        let only = !changing
            && decided.is_quiet()
            && !decided.tells(self.held.sight())
            && self.denied(listed, offset).is_none();
        if (!only && rank < from) || !self.may_be(offset, decided) {
            return None;
        }
        Some(Chosen {
            offset,
            only,
            rank,
            decided,
        })
    }

    // Checks whether nothing that is known forbids what was decided of a call.
    fn may_be(&self, offset: u32, decided: Decided) -> bool {
        let twice = match decided.shown {
            Some(shown) => !decided.lost && self.is_taken(shown.unique),
            None => false,
        };
        if decided.keeps(self.held.sight()) {
            return !twice;
        }
        !twice && self.needs.may_go(self.maker, offset) && self.may_leave(offset, decided)
    }

    // Checks whether the item that the key has may go, by a call: no others find its unique, or it is lost.
    fn may_leave(&self, offset: u32, decided: Decided) -> bool {
        match self.held.sight() {
            Sight::Item(known) => match known.unique {
                Some(unique) => decided.lost || self.needs.may_leave(unique, offset),
                None => true,
            },
            _ => true,
        }
    }
}

// The better of two: the only one, or that with the lower rank.
fn better(best: Option<Chosen>, other: Option<Chosen>) -> Option<Chosen> {
    match (best, other) {
        (Some(one), Some(two)) if two.only || two.rank < one.rank => Some(two),
        (Some(one), _) => Some(one),
        (None, other) => other,
    }
}
