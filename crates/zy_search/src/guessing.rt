//! Guesses of the item that a key had at first, from an answer that came after calls without one.

use crate::first::FirstItem;
use crate::getting::{Glimpse, glimpse_of};
use crate::words::{Word, is_silent, number_shown, shows};
use mc_allows::{Shown, padded_number};
use mc_calls::{Call, CallReply};
use std::alloc::Global;
use zy_base::{Blob, NoMemory, digits_of, number_text};
use zy_refute::Observed;

/// What a key may have had before some calls, in the flags and values of an answer after them.
#[derive(Clone, Copy)]
pub enum Was<'a> {
    /// No item.
    Nothing,
    /// Some item.
    Some,
    /// An item with these flags and this value.
    Value {
        flags: u32,
        value: &'a [u8],
    },
    /// An item with these flags whose value is this number, with spaces up to this length.
    Number {
        flags: u32,
        number: u64,
        length: usize,
    },
}

// The value of an item of which nothing is known but that it was there: it is no number.
const UNSEEN: [u8; 1] = *b"x";

/// Returns what a key had before a call, if its answer tells that and nothing was known before.
pub fn told_by(one: &Observed) -> Option<Was<'_>> {
    if let Some(
        Glimpse {
            flags,
            value: Some(value),
        },
    ) = glimpse_of(&one.shown)
    {
        return Some(Was::Value {
            flags: flags.unwrap_or(0),
            value: value.bytes(),
        });
    }
    if let Some(number) = number_shown(&one.shown) {
        return counted_from(one, 0, number, 0);
    }
    told_by_word(one)
}

// What a reply without fields tells.
fn told_by_word<'a>(one: &Observed) -> Option<Was<'a>> {
    if is_miss(&one.shown) || shows(&one.shown, Word::NotFound) {
        return Some(Was::Nothing);
    }
    let stored = shows(&one.shown, Word::Stored);
    let refused = shows(&one.shown, Word::NotStored);
    match &one.call {
        Call::Add { .. } if stored => Some(Was::Nothing),
        Call::Replace { .. } | Call::Cas { .. } if stored => Some(Was::Some),
        Call::Replace { .. } | Call::Append { .. } | Call::Prepend { .. } if refused => {
            Some(Was::Nothing)
        }
        Call::Delete { .. } if shows(&one.shown, Word::Deleted) => Some(Was::Some),
        _ => None,
    }
}

// Checks whether an answer says that there is no item.
fn is_miss(shown: &Shown) -> bool {
    matches!(
        shown,
        Shown::Reply {
            reply: CallReply::Miss
        }
    )
}

/// Checks whether a key has the same after a call, whatever it had before.
pub fn tells_nothing(one: &Observed) -> bool {
    match &one.call {
        Call::Set { .. } => true,
        Call::Delete { .. } => is_silent(&one.shown),
        _ => false,
    }
}

/// Returns what a key had before a call, if it has this after it; none if it cannot have had anything that
/// is known.
pub fn was_before<'a>(one: &Observed, after: Was<'a>) -> Option<Was<'a>> {
    match &one.call {
        Call::Set { .. } | Call::Delete { .. } => None,
        Call::Add { value, .. } if is_silent(&one.shown) => match after {
            Was::Nothing => None,
            Was::Value { value: found, .. } if found == value.bytes() => Some(Was::Nothing),
            _ => Some(after),
        },
        Call::Replace { value, .. } if is_silent(&one.shown) => match after {
            Was::Value { value: found, .. } if found == value.bytes() => Some(Was::Some),
            Was::Nothing | Was::Some => Some(after),
            _ => None,
        },
        Call::Append { value, .. } if was_joined(one) => cut_behind(after, value.bytes()),
        Call::Prepend { value, .. } if was_joined(one) => cut_before(after, value.bytes()),
        Call::Incr { .. } | Call::Decr { .. } if is_silent(&one.shown) => counted_before(
            one, after,
        ),
        _ => Some(after),
    }
}

// Checks whether a call may have joined its piece to a value.
fn was_joined(one: &Observed) -> bool {
    is_silent(&one.shown) || shows(&one.shown, Word::Stored)
}

// A value without a piece at its end.
fn cut_behind<'a>(after: Was<'a>, piece: &[u8]) -> Option<Was<'a>> {
    match after {
        Was::Value { flags, value } if value.ends_with(piece) => {
            match value.get(..value.len().saturating_sub(piece.len())) {
                Some(value) => Some(Was::Value { flags, value }),
                None => None,
            }
        }
        Was::Nothing | Was::Some => Some(after),
        _ => None,
    }
}

// A value without a piece at its beginning.
fn cut_before<'a>(after: Was<'a>, piece: &[u8]) -> Option<Was<'a>> {
    match after {
        Was::Value { flags, value } if value.starts_with(piece) => {
            match value.get(piece.len()..) {
                Some(value) => Some(Was::Value { flags, value }),
                None => None,
            }
        }
        Was::Nothing | Was::Some => Some(after),
        _ => None,
    }
}

// What a call without an answer counted, or did not if it is no number.
fn counted_before<'a>(one: &Observed, after: Was<'a>) -> Option<Was<'a>> {
    match after {
        Was::Value { flags, value } => match padded_number(value) {
            Some(number) => counted_from(one, flags, number, value.len()),
            None => Some(after),
        },
        Was::Number {
            flags,
            number,
            length,
        } => counted_from(one, flags, number, length),
        Was::Nothing | Was::Some => Some(after),
    }
}

// The number from which a call counted to this one, which had spaces up to this length.
fn counted_from<'a>(one: &Observed, flags: u32, number: u64, length: usize) -> Option<Was<'a>> {
    let before = match &one.call {
        Call::Incr { amount, .. } => number.wrapping_sub(*amount),
        Call::Decr { amount, .. } => number.saturating_add(*amount),
        _ => return None,
    };
    let padded = digits_of(number) < length;
    Some(Was::Number {
        flags,
        number: before,
        length: if padded { length } else { 0 },
    })
}

/// Makes the item that a key had, if it had one. May answer `NoMemory`.
pub fn item_that_was(alloc: Global, was: Was<'_>) -> Result<Option<FirstItem>, NoMemory> {
    match was {
        Was::Nothing => Ok(None),
        Was::Some => Ok(Some(FirstItem {
            flags: 0,
            value: Blob::copy_of(alloc, &UNSEEN)?,
        })),
        Was::Value { flags, value } => Ok(Some(FirstItem {
            flags,
            value: Blob::copy_of(alloc, value)?,
        })),
        Was::Number {
            flags,
            number,
            length,
        } => {
            let mut value = Blob::new(alloc);
            match write_padded(&mut value, number, length) {
                Ok(()) => Ok(Some(FirstItem { flags, value })),
                Err(refused) => {
                    drop(value);
                    Err(refused)
                }
            }
        }
    }
}

// Writes a number, and spaces up to a length.
fn write_padded(value: &mut Blob, number: u64, length: usize) -> Result<(), NoMemory> {
    number_text(value, number)?;
    for _ in value.bytes().len()..length {
        value.append(b" ")?;
    }
    Ok(())
}
