//! Walking through the entries of a history.
ghost use Rattle.std.specs.Prelude.{◌≡◌, ◌∷◌, [], length, IfSome, IfNone};

use crate::entry_ref::EntryRef;
use crate::ledger::Ledger;
use std::marker::Model;

/// The entries of a history that were not read yet. Contracts see it as their list.
#[derive(Drop)]
pub struct HistoryWalk<'h> {
    ledger: &'h Ledger,
    at: usize,
}

impl<'h> Model for HistoryWalk<'h> {
    ghost use Rattle.std.specs.Prelude.{◌≤◌, List, drop, length};
    ghost use Rattle.mc_calls.specs.declared.entry.Entry.{Entry};

    ghost Value = { List Entry };

    ghost view = { λ w. drop w.at w.ledger.now.entries };

    ghost invariant = { λ w. w.at ≤ length w.ledger.now.entries };
}

impl<'h> HistoryWalk<'h> {
    /// Returns the number of entries that are left.
    pub fn len(&self) -> usize
        ensures value { result ≡ length self.now }
    {
        self.ledger.len() - self.at
    }

    /// Returns the next entry; `None` if and only if none is left. Takes no memory.
    pub fn next(&mut self) -> Option<EntryRef<'h>>
        ensures some { IfSome result (λ e. self.old ≡ e ∷ self.new) }
        ensures none { IfNone result (self.old ≡ []) }
        ensures kept { IfNone result (self.new ≡ []) }
    {
        if self.at >= self.ledger.len() {
            return None;
        }
        let entry = self.ledger.entry(self.at);
        self.at += 1;
        Some(entry)
    }
}

impl Ledger {
    /// Returns the entries, one after the other. Takes no memory.
    pub fn walk(&self) -> HistoryWalk<'_>
        ensures value { result ≡ self.now.entries }
    {
        HistoryWalk {
            ledger: self,
            at: 0,
        }
    }
}
