//! The finished history of a shard.
ghost use Rattle.std.specs.Prelude.{◌≡◌, ◌<◌, length, Some, IfSome, option_map};
ghost use Rattle.std.specs.List.{slice_get};

use crate::entry_ref::EntryRef;
use crate::history_walk::HistoryWalk;
use crate::ledger::Ledger;
use std::marker::Model;

/// The history of a shard, after its last call. Contracts see it as the list of its entries, the
/// oldest first.
#[derive(Drop)]
pub struct History {
    ledger: Ledger,
}

impl Model for History {
    ghost use Rattle.std.specs.Prelude.{List};
    ghost use Rattle.mc_calls.specs.declared.entry.Entry.{Entry};

    ghost Value = { List Entry };

    ghost view = { λ h. h.ledger.entries };
}

impl History {
    /// Returns the number of entries.
    pub fn len(&self) -> usize
        ensures value { result ≡ length self.now }
    {
        self.ledger.len()
    }

    /// Returns the entry at an index.
    pub fn entry(&self, at: usize) -> EntryRef<'_>
        requires within { at < length self.now }
        ensures value { slice_get self.now at ≡ Some result }
    {
        self.ledger.entry(at)
    }

    /// Returns the stamp of the entry at an index.
    pub fn stamp(&self, at: usize) -> u64
        requires within { at < length self.now }
        ensures value { IfSome (slice_get self.now at) (λ e. e.stamp ≡ result) }
    {
        self.ledger.stamp(at)
    }

    /// Returns the entries, one after the other. Takes no memory.
    pub fn walk(&self) -> HistoryWalk<'_>
        ensures value { result ≡ self.now }
    {
        self.ledger.walk()
    }
}

impl Ledger {
    /// Returns the history, to which nothing more is appended. Takes no memory.
    pub fn into_history(self) -> History
        ensures value { result ≡ self.entries }
    {
        History { ledger: self }
    }
}
