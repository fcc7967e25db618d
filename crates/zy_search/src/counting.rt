//! What calls do that count.

use crate::decided::{Change, Decided, First, if_so};
use crate::held::{Known, Sight};
use crate::words::{Word, is_silent, number_shown, says, shows};
use mc_allows::{Shown, may_read, padded_number};
use zy_base::digits_of;
use zy_verdict::Choice;

/// How a number is counted.
#[derive(Clone, Copy)]
pub(crate) enum Count {
    Up(u64),
    Down(u64),
}

impl Count {
    // The number that comes of this one.
    fn of(self, number: u64) -> u64 {
        match self {
            Count::Up(amount) => number.wrapping_add(amount),
            Count::Down(amount) => number.saturating_sub(amount),
        }
    }

    // A number from which this one may have been counted.
    fn before(self, number: u64) -> u64 {
        match self {
            Count::Up(amount) => number.wrapping_sub(amount),
            Count::Down(amount) => number.saturating_add(amount),
        }
    }
}

// What a call does that counts.
pub(crate) fn counted(sight: Sight<'_>, shown: &Shown, count: Count) -> Option<Decided> {
    match sight {
        Sight::Nothing => if_so(says(shown, Word::NotFound), Change::Clears),
        Sight::Any if says(shown, Word::NotFound) => Some(Decided::plain(Change::Clears)),
        Sight::Any => counted_first(shown, count),
        Sight::Item(known) => match padded_number(known.value.bytes()) {
            Some(number) if known.open.is_none() => {
                counted_number(known, shown, count.of(number))
            }
            _ => counted_otherwise(known, shown, count),
        },
    }
}

// What a call does at a number, of which this one comes.
fn counted_number(known: &Known, shown: &Shown, number: u64) -> Option<Decided> {
    let value = known.value.bytes();
    if is_silent(shown) || number_shown(shown) == Some(number) {
        return Some(padded(number, value.len()));
    }
    if shows(shown, Word::NotNumber) && may_be_none(value) {
        return Some(Decided::chosen(Change::Keeps, Choice::NoNumber));
    }
    None
}

// The value is this number; it had this length before.
fn padded(number: u64, length: usize) -> Decided {
    let choice = if digits_of(number) < length {
        Choice::Padded
    } else {
        Choice::Plain
    };
    Decided::chosen(Change::Counts { number, length }, choice)
}

// The value is this number; a first item had the other one.
fn counted_from(number: u64, first: u64) -> Decided {
    Decided {
        first: First::Number(first),
        ..padded(number, digits_of(first))
    }
}

// Checks whether a server may read no number in a value that is one.
fn may_be_none(value: &[u8]) -> bool {
    match padded_number(value) {
        Some(number) => number >> 63 != 0 || value.ends_with(b" "),
        None => true,
    }
}

// The value is no number by itself, or is not known: the server found none in it, or read one.
fn counted_otherwise(known: &Known, shown: &Shown, count: Count) -> Option<Decided> {
    if says(shown, Word::NotNumber) {
        return Some(Decided::chosen(Change::Keeps, Choice::NoNumber));
    }
    let Some(number) = number_shown(shown) else {
        return None;
    };
    let read = count.before(number);
    if known.open.is_some() {
        return if known.value.bytes().is_empty() {
            Some(counted_from(number, read))
        } else {
            None
        };
    }
    if count.of(read) != number || !may_read(known.value.bytes(), read) {
        return None;
    }
    let change = Change::Counts { number, length: 0 };
    Some(Decided::chosen(change, Choice::Read(read)))
}

// A call counts at a key of which nothing is known: the flags are not known then.
fn counted_first(shown: &Shown, count: Count) -> Option<Decided> {
    match number_shown(shown) {
        Some(number) => Some(counted_from(number, count.before(number))),
        None if shows(shown, Word::NotNumber) => Some(Decided {
            choice: Choice::NoNumber,
            ..Decided::first(Change::Finds, First::Some)
        }),
        None => None,
    }
}
