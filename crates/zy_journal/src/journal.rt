//! The journal of a run.
ghost use Rattle.std.specs.Prelude.{◌≡◌, ◌≤◌, length, IfSome};
ghost use Rattle.zy_journal.specs.Merged.{AreInOrder, merged};

use crate::walk::Walk;
use mc_calls::{Entries, Hold, Holds};
use mc_history::History;
use std::marker::Model;

/// The calls of all connections in one order, and the holds. Contracts see the
/// two lists: the entries by stamp and then by shard, and the holds by rising connection and, for
/// one connection, in the order in which they happened.
#[derive(Drop)]
pub struct Journal {
    kept: Kept,
    holds: Holds,
}

// How the entries are kept.
#[derive(Drop)]
enum Kept {
    // As their list.
    Listed(Entries),
    // As the histories of all shards, which a walk merges.
    Apart(Vec<History>),
}

impl Model for Journal {
    ghost use Rattle.zy_journal.specs.Lists.{JournalLists};

    ghost Value = { JournalLists };

    ghost use Rattle.zy_journal.specs.Kept.{entries_of, IsKept};

    ghost view = { λ j. record { entries = entries_of j.kept; holds = j.holds } };

    ghost invariant = { λ j. IsKept j.kept };
}

impl Journal {
    /// Makes a journal of these lists, which are moved. Takes no memory.
    pub fn new(entries: Entries, holds: Holds) -> Journal
        ensures entries { result.entries ≡ entries }
        ensures holds { result.holds ≡ holds }
    {
        Journal {
            kept: Kept::Listed(entries),
            holds,
        }
    }

    // Makes the journal of the merged list of histories, and of these holds.
    pub(crate) fn apart(histories: Vec<History>, holds: Holds) -> Journal
        requires few { length histories.items ≤ 256 }
        requires ordered { AreInOrder histories.items }
        ensures entries { result.entries ≡ merged histories.items }
        ensures holds { result.holds ≡ holds }
    {
        Journal {
            kept: Kept::Apart(histories),
            holds,
        }
    }

    /// Returns the entries, one after the other. Takes no memory.
    pub fn entries(&self) -> Walk<'_>
        ensures value { result ≡ self.now.entries }
    {
        match &self.kept {
            Kept::Listed(entries) => Walk::listed(entries.items()),
            Kept::Apart(histories) => Walk::apart(histories.as_slice()),
        }
    }

    /// Returns the holds.
    pub fn holds(&self) -> &[Hold]
        ensures value { result.now ≡ self.now.holds }
    {
        self.holds.items()
    }

    /// Returns the number of entries; `None` if it does not fit in 64 bits.
    pub fn count(&self) -> Option<u64>
        ensures value { IfSome result (λ n. n ≡ length self.now.entries) }
    {
        match &self.kept {
            Kept::Listed(entries) => Some(entries.items().len() as u64),
            Kept::Apart(histories) => count_of(histories.as_slice()),
        }
    }
}

// Returns the number of entries of all histories.
fn count_of(histories: &[History]) -> Option<u64>
    ensures value { IfSome result (λ n. n ≡ length (merged histories.now)) }
{
    let mut count: u64 = 0;
    for history in histories {
        count = match count.checked_add(history.len() as u64) {
            Some(count) => count,
            None => return None,
        };
    }
    Some(count)
}
