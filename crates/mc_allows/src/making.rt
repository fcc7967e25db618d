//! Which calls may make a need.
ghost use Rattle.std.specs.Prelude.{◌≡◌};
ghost use Rattle.mc_allows.specs.Allows as Allows;
ghost use Rattle.mc_allows.specs.Makers as Makers;
ghost use Rattle.mc_allows.specs.Needs as Needs;

use crate::beside::{has_number, holds_without, is_of};
use crate::fact::Fact;
use crate::shown::Shown;
use mc_calls::{Call, CallReply};
use zy_base::Blob;

/// Checks whether a call may make a need that did not hold before it, by what its answer shows.
pub fn may_make(call: &Call, shown: &Shown, fact: &Fact) -> bool
    ensures value { result ≡ Makers.may_make call.now shown.now fact.now }
{
    makes(call, shown, fact) || (may_fail(call) && may_have_failed(shown) && holds_without(fact))
}

/// Checks whether a fact may be a need.
pub fn is_need(fact: &Fact) -> bool
    ensures value { result ≡ Makers.is_need fact.now }
{
    match fact {
        Fact::Counted { .. } | Fact::Ending { .. } | Fact::Beginning { .. } => false,
        _ => true,
    }
}

// Checks whether a call that did not fail may make a need.
fn makes(call: &Call, shown: &Shown, fact: &Fact) -> bool
    ensures value { result ≡ Makers.makes call.now shown.now fact.now }
{
    match call {
        Call::Set { flags, value, .. } | Call::Add { flags, value, .. } => {
            may_have_stored(shown) && is_of(fact, *flags, value)
        }
        Call::Replace { flags, value, .. } => may_replace(shown, fact, *flags, value),
        Call::Cas { flags, value, .. } => may_replace(shown, fact, *flags, value),
        Call::Append { value, .. } => {
            may_have_stored(shown) && !value.bytes().is_empty() && may_end_with(fact, value)
        }
        Call::Prepend { value, .. } => {
            may_have_stored(shown) && !value.bytes().is_empty() && may_begin_with(fact, value)
        }
        Call::Incr { .. } | Call::Decr { .. } => may_have_counted(shown, fact),
        Call::Delete { .. } => may_have_deleted(shown) && holds_without(fact),
        Call::Flush => holds_without(fact),
        Call::Get { .. } | Call::Tally => false,
    }
}

// Checks whether a call that stores in place of an item may make a need.
fn may_replace(shown: &Shown, fact: &Fact, flags: u32, value: &Blob) -> bool
    ensures value { result ≡ Makers.may_replace shown.now fact.now flags value.now }
{
    may_have_stored(shown) && is_of(fact, flags, value) && !is_presence(fact)
}

// Checks whether a call may fail.
fn may_fail(call: &Call) -> bool
    ensures value { result ≡ Allows.may_fail call.now }
{
    match call {
        Call::Get { .. } | Call::Delete { .. } | Call::Flush | Call::Tally => false,
        _ => true,
    }
}

fn may_have_failed(shown: &Shown) -> bool
    ensures value { result ≡ Needs.may_have_failed shown.now }
{
    match shown {
        Shown::Nothing | Shown::Failure => true,
        _ => false,
    }
}

fn may_have_stored(shown: &Shown) -> bool
    ensures value { result ≡ Makers.may_have_stored shown.now }
{
    match shown {
        Shown::Nothing | Shown::NoFailure => true,
        Shown::Reply {
            reply: CallReply::Stored,
        } => true,
        _ => false,
    }
}

fn may_have_deleted(shown: &Shown) -> bool
    ensures value { result ≡ Makers.may_have_deleted shown.now }
{
    match shown {
        Shown::Nothing | Shown::NoFailure => true,
        Shown::Reply {
            reply: CallReply::Deleted,
        } => true,
        _ => false,
    }
}

// Checks whether a need says no more than that there is an item.
fn is_presence(fact: &Fact) -> bool
    ensures value { result ≡ Makers.is_presence fact.now }
{
    match fact {
        Fact::Present => true,
        _ => false,
    }
}

fn may_end_with(fact: &Fact, piece: &Blob) -> bool
    ensures value { result ≡ Makers.may_end_with fact.now piece.now }
{
    match fact {
        Fact::Item { value, .. } | Fact::Value { value } => value.bytes().ends_with(piece.bytes()),
        Fact::Number { .. } => true,
        _ => false,
    }
}

fn may_begin_with(fact: &Fact, piece: &Blob) -> bool
    ensures value { result ≡ Makers.may_begin_with fact.now piece.now }
{
    match fact {
        Fact::Item { value, .. } | Fact::Value { value } => value
            .bytes()
            .starts_with(piece.bytes()),
        Fact::Number { .. } => true,
        _ => false,
    }
}

// Checks whether a call that counts may make a need.
fn may_have_counted(shown: &Shown, fact: &Fact) -> bool
    ensures value { result ≡ Makers.may_have_counted shown.now fact.now }
{
    match shown {
        Shown::Nothing | Shown::NoFailure => is_countable(fact),
        Shown::Reply {
            reply: CallReply::Number { number },
        } => is_count(fact, *number),
        _ => false,
    }
}

fn is_countable(fact: &Fact) -> bool
    ensures value { result ≡ Makers.is_countable fact.now }
{
    match fact {
        Fact::Item { .. } | Fact::Value { .. } | Fact::Number { .. } => true,
        _ => false,
    }
}

fn is_count(fact: &Fact, number: u64) -> bool
    ensures value { result ≡ Makers.is_count fact.now number }
{
    match fact {
        Fact::Item { value, .. } | Fact::Value { value } => has_number(value, number),
        Fact::Number { number: own } => *own == number,
        _ => false,
    }
}
