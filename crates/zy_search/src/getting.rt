//! What a get does.

use crate::decided::{Change, Decided, First, Unique, if_so};
use crate::held::{AT_FIRST, Known, Sight};
use mc_allows::Shown;
use mc_calls::CallReply;
use zy_base::Blob;
use zy_refute::Observed;

/// What an answer shows of the item that a get found.
#[derive(Clone, Copy)]
pub(crate) struct Glimpse<'a> {
    pub(crate) flags: Option<u32>,
    pub(crate) value: Option<&'a Blob>,
}

// What an answer shows of an item.
pub(crate) fn glimpse_of(shown: &Shown) -> Option<Glimpse<'_>> {
    match shown {
        Shown::Reply {
            reply: CallReply::Hit { flags, value, .. },
        } => Some(Glimpse {
            flags: Some(*flags),
            value: Some(value),
        }),
        Shown::HitWith { value } => Some(Glimpse {
            flags: None,
            value: Some(value),
        }),
        Shown::SomeHit => Some(Glimpse {
            flags: None,
            value: None,
        }),
        _ => None,
    }
}

// What a get does.
pub(crate) fn got(sight: Sight<'_>, one: &Observed) -> Option<Decided> {
    match (sight, glimpse_of(&one.shown)) {
        (_, None) => got_nothing(sight, &one.shown),
        (Sight::Any, Some(glimpse)) => {
            let change = if glimpse.value.is_some() {
                Change::Shows
            } else {
                Change::Finds
            };
            let first = if glimpse.value.is_some() {
                First::Shown
            } else {
                First::Some
            };
            Some(Decided {
                shown: one.unique.map(|unique| Unique {
                    origin: AT_FIRST,
                    unique,
                }),
                ..Decided::first(change, first)
            })
        }
        (Sight::Nothing, Some(_)) => None,
        (Sight::Item(known), Some(glimpse)) => seen(known, glimpse, one.unique),
    }
}

// What a get does that found nothing, or whose answer does not say what.
fn got_nothing(sight: Sight<'_>, shown: &Shown) -> Option<Decided> {
    match shown {
        Shown::Nothing | Shown::NoFailure => Some(Decided::plain(Change::Keeps)),
        Shown::Reply {
            reply: CallReply::Miss,
        } => if_so(!matches!(sight, Sight::Item(_)), Change::Clears),
        _ => None,
    }
}

// An item is seen, as far as the answer shows it.
fn seen(known: &Known, glimpse: Glimpse<'_>, unique: Option<u64>) -> Option<Decided> {
    let same_flags = match glimpse.flags {
        Some(flags) => known.open.is_some() || flags == known.flags,
        None => true,
    };
    let same_unique = match (unique, known.unique) {
        (Some(unique), Some(own)) => unique == own,
        _ => true,
    };
    if !same_flags || !same_unique {
        return None;
    }
    let mut decided = Decided::plain(Change::Shows);
    if let Some(value) = glimpse.value {
        if !may_be(known, value.bytes()) {
            return None;
        }
        if known.open.is_some() {
            decided.first = First::Shown;
        } else if value.bytes().len() < known.value.bytes().len() {
            decided.unpadded = Some(known.origin);
        }
    }
    if let (Some(unique), None) = (unique, known.unique) {
        decided.shown = Some(Unique {
            origin: known.origin,
            unique,
        });
    }
    Some(decided)
}

// Checks whether an item's value may be this one.
fn may_be(known: &Known, value: &[u8]) -> bool {
    let own = known.value.bytes();
    match known.open {
        Some(offset) => {
            let begun = own.get(..offset).unwrap_or(own);
            let rest = own.get(offset..).unwrap_or(own);
            own.len() <= value.len() && value.starts_with(begun) && value.ends_with(rest)
        }
        None => own == value || (value.len() == known.digits && own.starts_with(value)),
    }
}
