//! What calls change, make and need, as far as their answers show it.

use crate::hashing::{absence_hash, number_hash, value_hash};
use mc_allows::{Shown, padded_number};
use mc_calls::{Call, CallReply};
use zy_base::Blob;
use zy_refute::Observed;

/// Checks whether a call may change what its key has.
pub fn changes(one: &Observed) -> bool {
    match &one.shown {
        Shown::Reply { reply } => matches!(
            reply,
            CallReply::Stored | CallReply::Deleted | CallReply::Number { .. } | CallReply::Flushed
        ),
        Shown::SomeHit | Shown::HitWith { .. } => false,
        Shown::Nothing | Shown::NoFailure | Shown::Failure => {
            !matches!(one.call, Call::Get { .. } | Call::Tally)
        }
    }
}

/// Checks whether a call surely changes what its key has.
pub fn surely_changes(one: &Observed) -> bool {
    match &one.shown {
        Shown::Nothing | Shown::NoFailure => matches!(
            one.call,
            Call::Set { .. } | Call::Delete { .. }
        ),
        Shown::Failure => false,
        _ => changes(one),
    }
}

/// Checks whether a call was told that the item has another unique.
pub fn found_another(one: &Observed) -> bool {
    matches!(
        one.shown,
        Shown::Reply {
            reply: CallReply::Exists
        }
    )
}

/// What a call leaves or needs, as far as its answer shows it.
#[derive(Clone, Copy, PartialEq, Eq)]
pub enum Trace {
    /// What has this hash: a value, or no item.
    Hash(u64),
    /// A value that is not known.
    Unknown,
    /// Nothing that is looked at.
    Nothing,
}

// Whether the answer is a number, and which.
fn counted(one: &Observed) -> Option<u64> {
    match &one.shown {
        Shown::Reply {
            reply: CallReply::Number { number },
        } => Some(*number),
        _ => None,
    }
}

/// Returns what a call leaves.
pub fn left_by(one: &Observed, key: u32) -> Trace {
    if !changes(one) {
        return Trace::Nothing;
    }
    if let Shown::Failure = one.shown {
        return Trace::Hash(absence_hash(key));
    }
    match &one.call {
        Call::Set { value, .. } | Call::Add { value, .. } | Call::Replace { value, .. } => {
            Trace::Hash(value_hash(key, value.bytes()))
        }
        Call::Cas { value, .. } => Trace::Hash(value_hash(key, value.bytes())),
        Call::Incr { .. } | Call::Decr { .. } => match counted(one) {
            Some(number) => Trace::Hash(number_hash(key, number)),
            None => Trace::Unknown,
        },
        Call::Append { .. } | Call::Prepend { .. } => Trace::Unknown,
        Call::Delete { .. } => Trace::Hash(absence_hash(key)),
        Call::Get { .. } | Call::Flush | Call::Tally => Trace::Nothing,
    }
}

/// Returns what a call needs.
pub fn needed_by(one: &Observed, key: u32) -> Trace {
    match &one.shown {
        Shown::HitWith { value } => Trace::Hash(value_hash(key, value.bytes())),
        Shown::Reply {
            reply: CallReply::Hit { value, .. },
        } => Trace::Hash(value_hash(key, value.bytes())),
        Shown::Reply {
            reply: CallReply::Miss | CallReply::NotFound,
        } => Trace::Hash(absence_hash(key)),
        Shown::Reply {
            reply: CallReply::Stored,
        } if matches!(one.call, Call::Add { .. }) => Trace::Hash(absence_hash(key)),
        Shown::Reply {
            reply: CallReply::Number { number },
        } => match &one.call {
            Call::Incr { amount, .. } => Trace::Hash(number_hash(
                key,
                number.wrapping_sub(*amount),
            )),
            Call::Decr { amount, .. } if *number != 0 => {
                Trace::Hash(number_hash(key, number.saturating_add(*amount)))
            }
            _ => Trace::Nothing,
        },
        _ => Trace::Nothing,
    }
}

/// Checks whether a call needs that there is no item.
pub fn needs_absence(one: &Observed) -> bool {
    match &one.shown {
        Shown::Reply {
            reply: CallReply::Miss | CallReply::NotFound,
        } => true,
        Shown::Reply {
            reply: CallReply::Stored,
        } => matches!(one.call, Call::Add { .. }),
        _ => false,
    }
}

/// Returns the value that a call found, if its answer shows it.
pub fn found_by(one: &Observed) -> Option<&Blob> {
    match &one.shown {
        Shown::HitWith { value } => Some(value),
        Shown::Reply {
            reply: CallReply::Hit { value, .. },
        } => Some(value),
        _ => None,
    }
}

/// Checks whether a call that joins or counts may have left a value.
pub fn may_leave(one: &Observed, value: &[u8]) -> bool {
    match &one.call {
        Call::Append { value: piece, .. } => value.ends_with(piece.bytes()),
        Call::Prepend { value: piece, .. } => value.starts_with(piece.bytes()),
        Call::Incr { .. } | Call::Decr { .. } => padded_number(value).is_some(),
        _ => true,
    }
}

/// Checks whether a call counts.
pub fn is_counting(one: &Observed) -> bool {
    matches!(one.call, Call::Incr { .. } | Call::Decr { .. })
}

/// Returns what a call that joins a piece to a value must have found to leave this; none if it is no such call.
pub fn joined_to<'a>(one: &Observed, value: &'a [u8]) -> Option<&'a [u8]> {
    match &one.call {
        Call::Append { value: piece, .. } => {
            value.get(..value.len().saturating_sub(piece.bytes().len()))
        }
        Call::Prepend { value: piece, .. } => value.get(piece.bytes().len()..),
        _ => None,
    }
}

/// Returns the unique that the item of a call must have, or must not have if it found another.
pub fn expected(one: &Observed) -> Option<u64> {
    match (&one.call, &one.shown) {
        (
            Call::Cas { unique, .. },
            Shown::Reply {
                reply: CallReply::Stored | CallReply::Exists,
            },
        ) => Some(*unique),
        _ => one.unique,
    }
}
