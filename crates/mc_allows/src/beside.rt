//! When a fact holds of an item, and which facts can hold together.
ghost use Rattle.std.specs.Prelude.{◌≡◌};
ghost use Rattle.mc_allows.specs.Facts as Facts;
ghost use Rattle.mc_allows.specs.Values as Values;

use crate::fact::Fact;
use crate::values::{may_read, padded_number};
use zy_base::Blob;

/// Checks whether a fact holds of an item with these flags and this value.
pub fn is_of(fact: &Fact, flags: u32, value: &Blob) -> bool
    ensures value { result ≡ Facts.is_of fact.now flags value.now }
{
    match fact {
        Fact::Unknown | Fact::Present => true,
        Fact::Never | Fact::Absent => false,
        Fact::Item {
            flags: own,
            value: bytes,
        } => *own == flags && *bytes == *value,
        Fact::Value { value: bytes } => *bytes == *value,
        Fact::Number { number } => may_read(value.bytes(), *number),
        Fact::Counted { number } => has_number(value, *number),
        Fact::Ending { piece } => value.bytes().ends_with(piece.bytes()),
        Fact::Beginning { piece } => value.bytes().starts_with(piece.bytes()),
    }
}

/// Checks whether a value is this number in digits, perhaps with spaces after them.
pub fn has_number(value: &Blob, number: u64) -> bool
    ensures value { result ≡ Facts.is_this_number (Values.padded_number value.now) number }
{
    match padded_number(value.bytes()) {
        Some(own) => own == number,
        None => false,
    }
}

/// Checks whether a fact holds if there is no item.
pub fn holds_without(fact: &Fact) -> bool
    ensures value { result ≡ Facts.holds_without fact.now }
{
    match fact {
        Fact::Unknown | Fact::Absent => true,
        _ => false,
    }
}

// Checks whether a fact may hold of an item, of which nothing else is known.
fn may_hold(fact: &Fact) -> bool
    ensures value { result ≡ Facts.may_hold fact.now }
{
    match fact {
        Fact::Never | Fact::Absent => false,
        _ => true,
    }
}

// Checks whether a fact may hold of an item with this value.
fn may_hold_of_value(fact: &Fact, value: &Blob) -> bool
    ensures value { result ≡ Facts.may_hold_of_value fact.now value.now }
{
    match fact {
        Fact::Item { value: bytes, .. } => *bytes == *value,
        _ => is_of(fact, 0, value),
    }
}

// Checks whether a fact may hold of an item whose value is this number.
fn may_hold_of_number(fact: &Fact, number: u64) -> bool
    ensures value { result ≡ Facts.may_hold_of_number fact.now number }
{
    match fact {
        Fact::Item { value, .. } | Fact::Value { value } => has_number(value, number),
        Fact::Number { number: own } | Fact::Counted { number: own } => *own == number,
        _ => may_hold(fact),
    }
}

// Checks whether a fact may hold of an item whose value ends with a piece.
fn may_hold_of_ending(fact: &Fact, piece: &Blob) -> bool
    ensures value { result ≡ Facts.may_hold_of_ending fact.now piece.now }
{
    match fact {
        Fact::Item { value, .. } | Fact::Value { value } => value.bytes().ends_with(piece.bytes()),
        _ => may_hold(fact),
    }
}

// Checks whether a fact may hold of an item whose value begins with a piece.
fn may_hold_of_beginning(fact: &Fact, piece: &Blob) -> bool
    ensures value { result ≡ Facts.may_hold_of_beginning fact.now piece.now }
{
    match fact {
        Fact::Item { value, .. } | Fact::Value { value } => value
            .bytes()
            .starts_with(piece.bytes()),
        _ => may_hold(fact),
    }
}

/// Checks whether a fact may hold beside another one, `left`.
pub fn may_hold_beside(left: &Fact, fact: &Fact) -> bool
    ensures value { result ≡ Facts.may_hold_beside left.now fact.now }
{
    match left {
        Fact::Unknown | Fact::Never => true,
        Fact::Absent => holds_without(fact),
        Fact::Present | Fact::Number { .. } => may_hold(fact),
        Fact::Item { flags, value } => is_of(fact, *flags, value),
        Fact::Value { value } => may_hold_of_value(fact, value),
        Fact::Counted { number } => may_hold_of_number(fact, *number),
        Fact::Ending { piece } => may_hold_of_ending(fact, piece),
        Fact::Beginning { piece } => may_hold_of_beginning(fact, piece),
    }
}
