//! Walking through the entries of a journal.
ghost use Rattle.std.specs.Prelude.{◌≡◌, ◌∷◌, ◌≤◌, [], length, IfSome, IfNone};
ghost use Rattle.zy_journal.specs.Merged.{AreInOrder, merged};

use crate::rests::Rests;
use mc_calls::Entry;
use mc_history::{EntryRef, History};
use std::marker::Model;

/// The entries of a journal that were not read yet. Contracts see it as their list.
#[derive(Drop)]
pub struct Walk<'j> {
    // What is left of a list, and then what is left of histories. One of the two is empty from the
    // start.
    listed: &'j [Entry],
    rests: Rests<'j>,
}

impl<'j> Model for Walk<'j> {
    ghost use Rattle.std.specs.Prelude.{List, ◌++◌};
    ghost use Rattle.mc_calls.specs.declared.entry.Entry.{Entry};
    ghost use Rattle.zy_journal.specs.Merged.{AreInOrder, merged};

    ghost Value = { List Entry };

    ghost view = { λ w. w.listed.now ++ merged w.rests };

    ghost invariant = { λ w. AreInOrder w.rests };
}

impl<'j> Walk<'j> {
    // Begins with all entries of a list.
    pub(crate) fn listed(entries: &'j [Entry]) -> Walk<'j>
        ensures value { result ≡ entries.now }
    {
        Walk {
            listed: entries,
            rests: Rests::new(&[]),
        }
    }

    // Begins with all entries of histories, merged.
    pub(crate) fn apart(histories: &'j [History]) -> Walk<'j>
        requires few { length histories.now ≤ 256 }
        requires ordered { AreInOrder histories.now }
        ensures value { result ≡ merged histories.now }
    {
        Walk {
            listed: &[],
            rests: Rests::new(histories),
        }
    }

    /// Returns the next entry; `None` if and only if none is left. Takes no memory.
    pub fn next(&mut self) -> Option<EntryRef<'j>>
        ensures some { IfSome result (λ e. self.old ≡ e ∷ self.new) }
        ensures none { IfNone result (self.old ≡ []) }
        ensures kept { IfNone result (self.new ≡ []) }
    {
        if let Some((first, others)) = self.listed.split_first() {
            self.listed = others;
            return Some(EntryRef::of(first));
        }
        self.rests.next()
    }
}
