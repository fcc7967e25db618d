//! What a call can have joined its piece to.
ghost use Rattle.std.specs.Prelude.{◌≡◌, ◌<◌, length, IfOk, IfSome, IsTrue};
ghost use Rattle.mc_allows.specs.Turns.{with_value, SaysValue};
ghost use Rattle.zy_refute.specs.Courses.{IsNeverMet};
ghost use Rattle.zy_refute.specs.Unmet.{IsRest, HasNoRest, AreNeverMet};

use crate::need::Need;
use crate::observed::Observed;
use crate::store::Store;
use mc_allows::{Fact, may_make};
use mc_calls::Call;
use std::alloc::Global;
use zy_base::{Blob, NoMemory};

/// Checks that a call can only have made the value of a fact by joining its piece to a rest that is
/// known never to be met.
pub fn has_no_rest(
    store: Store,
    calls: &[Observed],
    known: &[Need],
    fact: &Fact,
    at: usize,
    call: &Observed,
) -> bool
    requires known { AreNeverMet store calls.now known.now }
    ensures none { IsTrue result → HasNoRest store calls.now fact.now at call.now }
{
    match value_of(fact) {
        Some(value) => match rest_of(&call.call, value) {
            Some(rest) => is_known(store, calls, known, fact, rest, at),
            None => false,
        },
        None => false,
    }
}

// Returns the value that a fact says.
fn value_of(fact: &Fact) -> Option<&Blob>
    ensures says { IfSome result (λ value. SaysValue fact.now value.now) }
{
    match fact {
        Fact::Item { value, .. } | Fact::Value { value } => Some(value),
        _ => None,
    }
}

// Returns the rest of a value, without the piece that a call joins to it.
fn rest_of<'a>(call: &Call, value: &'a Blob) -> Option<&'a [u8]>
    ensures rest { IfSome result (λ rest. IsRest call.now value.now rest.now) }
{
    match call {
        Call::Append { value: piece, .. } => value.bytes().strip_suffix(piece.bytes()),
        Call::Prepend { value: piece, .. } => value.bytes().strip_prefix(piece.bytes()),
        _ => None,
    }
}

// Checks whether it is known that the fact with the rest in place of its value is never met.
fn is_known(
    store: Store,
    calls: &[Observed],
    known: &[Need],
    fact: &Fact,
    rest: &[u8],
    at: usize,
) -> bool
    requires known { AreNeverMet store calls.now known.now }
    ensures never { IsTrue result → IsNeverMet store calls.now (with_value fact.now rest.now) at }
{
    for need in known {
        if need.reader == at && is_with_value(&need.fact, fact, rest) {
            return true;
        }
    }
    false
}

// Checks whether a fact is another one with the rest in place of its value.
fn is_with_value(own: &Fact, fact: &Fact, rest: &[u8]) -> bool
    ensures same { IsTrue result → own.now ≡ with_value fact.now rest.now }
{
    match (own, fact) {
        (Fact::Item { flags, value }, Fact::Item { flags: other, .. }) => {
            *flags == *other && value.bytes() == rest
        }
        (Fact::Item { .. }, _) => false,
        (Fact::Value { .. }, Fact::Item { .. }) => false,
        (Fact::Value { value }, _) => value.bytes() == rest,
        _ => false,
    }
}

/// Finds the first call that makes the value of a fact by joining its piece to a rest of which it is
/// not known that it is never met; the need is that of this rest.
pub fn unknown_rest(
    alloc: Global,
    calls: &[Observed],
    known: &[Need],
    fact: &Fact,
    reader: usize,
) -> Result<Option<Need>, NoMemory>
    ensures within { IfOk result (λ need. IfSome need (λ n. n.reader < length calls.now)) }
{
    match value_of(fact) {
        Some(value) => {
            for at in 0..calls.len() {
                if at != reader && joins_unknown(&calls[at], known, fact, value, at) {
                    return rest_need(alloc, &calls[at], fact, value, at);
                }
            }
            Ok(None)
        }
        None => Ok(None),
    }
}

// Checks whether a call joins its piece to a rest of which nothing is known.
fn joins_unknown(call: &Observed, known: &[Need], fact: &Fact, value: &Blob, at: usize) -> bool {
    match rest_of(&call.call, value) {
        Some(rest) => {
            may_make(&call.call, &call.shown, fact) && !is_listed(known, fact, rest, at)
        }
        None => false,
    }
}

// Checks whether the fact with the rest in place of its value is listed.
fn is_listed(known: &[Need], fact: &Fact, rest: &[u8], at: usize) -> bool {
    for need in known {
        if need.reader == at && is_with_value(&need.fact, fact, rest) {
            return true;
        }
    }
    false
}

// Returns the need of the rest that a call at this place joins its piece to.
fn rest_need(
    alloc: Global,
    call: &Observed,
    fact: &Fact,
    value: &Blob,
    at: usize,
) -> Result<Option<Need>, NoMemory>
    ensures at { IfOk result (λ need. IfSome need (λ n. n.reader ≡ at)) }
{
    match rest_of(&call.call, value) {
        Some(rest) => {
            let rest = Blob::copy_of(alloc, rest)?;
            let fact = match fact {
                Fact::Item { flags, .. } => Fact::Item {
                    flags: *flags,
                    value: rest,
                },
                _ => Fact::Value { value: rest },
            };
            Ok(Some(Need { fact, reader: at }))
        }
        None => Ok(None),
    }
}

/// Checks whether a call that makes the value of a fact joins its piece to a rest.
pub(crate) fn is_join(call: &Observed, fact: &Fact) -> bool {
    match value_of(fact) {
        Some(value) => rest_of(&call.call, value).is_some(),
        None => false,
    }
}

/// Returns the need of the rest to which the call at a place joins its piece, if it makes the value of
/// a fact by that.
pub(crate) fn rest_of_join(
    alloc: Global,
    calls: &[Observed],
    fact: &Fact,
    at: usize,
) -> Result<Option<Need>, NoMemory> {
    match (value_of(fact), calls.get(at)) {
        (Some(value), Some(call)) => rest_need(alloc, call, fact, value, at),
        _ => Ok(None),
    }
}
