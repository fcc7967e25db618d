//! What a call does at a key, and what the server chose.

use crate::held::Sight;
use zy_verdict::Choice;

/// What a call does to what its key has.
#[derive(Clone, Copy, PartialEq, Eq)]
pub enum Change {
    /// The key keeps what it has.
    Keeps,
    /// It keeps its item, which is what the answer shows.
    Shows,
    /// It keeps a first item, of which nothing is shown.
    Finds,
    /// It keeps its item, unless a later answer shows that it is gone: the call failed.
    Doubts,
    /// It has no item then.
    Clears,
    /// It has what the call brings.
    Stores,
    /// The call's piece is joined to the value.
    Joins,
    /// The value is this number, with spaces behind it up to this length.
    Counts { number: u64, length: usize },
}

/// What is known of an item that was there at first.
#[derive(Clone, Copy, PartialEq, Eq)]
pub enum First {
    /// Nothing new.
    Unsaid,
    /// It was there.
    Some,
    /// Its value was this number.
    Number(u64),
    /// It is what the answer shows.
    Shown,
}

/// What a call does at a key, and what the server chose.
#[derive(Clone, Copy)]
pub struct Decided {
    pub change: Change,
    pub choice: Choice,
    /// The item was lost right before the call.
    pub lost: bool,
    /// The origin of the item and the unique that it had, if the answer shows this.
    pub shown: Option<Unique>,
    /// The item's number turned out to have no spaces: its origin.
    pub unpadded: Option<usize>,
    /// The item turned out to be gone since a call failed: the offset of that call.
    pub gone: Option<usize>,
    pub first: First,
}

/// The origin of an item, and its unique.
#[derive(Clone, Copy)]
pub struct Unique {
    pub origin: usize,
    pub unique: u64,
}

impl Decided {
    // Nothing was chosen.
    pub(crate) fn plain(change: Change) -> Decided {
        Decided {
            change,
            choice: Choice::Plain,
            lost: false,
            shown: None,
            unpadded: None,
            gone: None,
            first: First::Unsaid,
        }
    }

    // The server chose this.
    pub(crate) fn chosen(change: Change, choice: Choice) -> Decided {
        Decided {
            choice,
            ..Decided::plain(change)
        }
    }

    // This is known of the first item.
    pub(crate) fn first(change: Change, first: First) -> Decided {
        Decided {
            first,
            ..Decided::plain(change)
        }
    }

    /// Checks whether nothing is lost, gone or shown besides.
    pub fn is_quiet(self) -> bool {
        !self.lost && self.gone.is_none() && self.shown.is_none()
    }

    /// Checks whether the call tells what a key had of which nothing was known.
    pub fn tells(self, sight: Sight<'_>) -> bool {
        matches!(sight, Sight::Any) && self.change != Change::Keeps
    }

    /// Checks whether the key has another item then.
    pub fn stores(self) -> bool {
        matches!(
            self.change,
            Change::Stores | Change::Joins | Change::Counts { .. }
        )
    }

    /// Checks whether a key that has this keeps it.
    pub fn keeps(self, sight: Sight<'_>) -> bool {
        match self.change {
            Change::Keeps | Change::Shows | Change::Finds => !self.lost && self.gone.is_none(),
            Change::Clears => matches!(sight, Sight::Nothing),
            _ => false,
        }
    }
}

// A change, if this is so.
pub(crate) fn if_so(holds: bool, change: Change) -> Option<Decided> {
    if holds {
        Some(Decided::plain(change))
    } else {
        None
    }
}
