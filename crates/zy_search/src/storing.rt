//! What calls do that store, join or delete.

use crate::decided::{Change, Decided, First, Unique, if_so};
use crate::held::{AT_FIRST, Sight};
use crate::words::{Word, is_silent, says, shows};
use mc_allows::Shown;
use zy_base::VALUE_LIMIT;
use zy_verdict::Choice;

// A value of more bytes may be too large for a server.
const SURE_LENGTH: usize = 1_000_000;

// What an add does.
pub(crate) fn added(sight: Sight<'_>, shown: &Shown) -> Option<Decided> {
    match sight {
        Sight::Nothing => if_so(says(shown, Word::Stored), Change::Stores),
        Sight::Item(_) => if_so(says(shown, Word::NotStored), Change::Keeps),
        Sight::Any if says(shown, Word::Stored) => Some(Decided::plain(Change::Stores)),
        Sight::Any if shows(shown, Word::NotStored) => {
            Some(Decided::first(Change::Finds, First::Some))
        }
        Sight::Any => None,
    }
}

// What a replace does.
pub(crate) fn replaced(sight: Sight<'_>, shown: &Shown) -> Option<Decided> {
    match sight {
        Sight::Item(_) => if_so(says(shown, Word::Stored), Change::Stores),
        Sight::Any if says(shown, Word::Stored) => {
            Some(Decided::first(Change::Stores, First::Some))
        }
        Sight::Any | Sight::Nothing => if_so(says(shown, Word::NotStored), Change::Clears),
    }
}

// What a call does that joins a piece of this length to the value.
pub(crate) fn joined(sight: Sight<'_>, shown: &Shown, piece: usize) -> Option<Decided> {
    match sight {
        Sight::Item(known) => {
            let length = known.value.bytes().len().saturating_add(piece);
            if says(shown, Word::Stored) && length <= VALUE_LIMIT as usize {
                Some(Decided::plain(Change::Joins))
            } else if SURE_LENGTH < length && says(shown, Word::NotStored) {
                Some(Decided::chosen(Change::Keeps, Choice::Refused))
            } else {
                None
            }
        }
        Sight::Any if shows(shown, Word::Stored) => {
            Some(Decided::first(Change::Joins, First::Some))
        }
        Sight::Any | Sight::Nothing => if_so(says(shown, Word::NotStored), Change::Clears),
    }
}

// What a cas does that names this unique.
pub(crate) fn exchanged(sight: Sight<'_>, shown: &Shown, unique: u64) -> Option<Decided> {
    match sight {
        Sight::Nothing => if_so(says(shown, Word::NotFound), Change::Clears),
        Sight::Any if shows(shown, Word::Stored) => Some(Decided {
            first: First::Some,
            ..named(AT_FIRST, unique)
        }),
        Sight::Any if shows(shown, Word::Exists) => {
            Some(Decided::first(Change::Finds, First::Some))
        }
        Sight::Any if is_silent(shown) => Some(Decided::plain(Change::Keeps)),
        Sight::Any => if_so(shows(shown, Word::NotFound), Change::Clears),
        Sight::Item(known) => match known.unique {
            Some(own) if own == unique => if_so(says(shown, Word::Stored), Change::Stores),
            None if shows(shown, Word::Stored) => Some(named(known.origin, unique)),
            _ => if_so(says(shown, Word::Exists), Change::Keeps),
        },
    }
}

// The item has this unique, and is replaced.
fn named(origin: usize, unique: u64) -> Decided {
    Decided {
        shown: Some(Unique { origin, unique }),
        ..Decided::plain(Change::Stores)
    }
}

// What a deletion does.
pub(crate) fn deleted(sight: Sight<'_>, shown: &Shown) -> Option<Decided> {
    match sight {
        Sight::Item(_) => if_so(says(shown, Word::Deleted), Change::Clears),
        Sight::Any if shows(shown, Word::Deleted) => {
            Some(Decided::first(Change::Clears, First::Some))
        }
        Sight::Any | Sight::Nothing => {
            if_so(
                is_silent(shown) || shows(shown, Word::NotFound),
                Change::Clears,
            )
        }
    }
}
