//! Checks that a need has no possible source.
ghost use Rattle.std.specs.Prelude.{◌≡◌, ◌<◌, length, IfOk, IfSome, IsTrue, not, Some};
ghost use Rattle.std.specs.List.{slice_get};
ghost use Rattle.mc_allows.specs.Facts as Facts;
ghost use Rattle.mc_allows.specs.Needs as Needs;
ghost use Rattle.zy_refute.specs.Courses.{IsNeverMet};
ghost use Rattle.zy_refute.specs.Unmet.{IsBreaker, IsBreakerIn, IsUndone, AreNeverMet};
ghost use Rattle.zy_refute.specs.Unmet.{IsNoSource, IsNoMaker, IsNoMakerAt};
ghost use Rattle.zy_refute.specs.Unmet.{IsLossless, IsNoStart, AreNoSources};

use crate::need::Need;
use crate::observed::Observed;
use crate::order::is_surely_before;
use crate::rests::has_no_rest;
use crate::store::Store;
use mc_allows::{Fact, holds_without, is_need, left_by, may_hold_beside, may_make};
use zy_base::NoMemory;

/// Checks that a fact is never met right before a call, in any order: no loss makes it, and neither
/// the start nor a call is a source of it. `known` has needs that are never met.
pub fn has_no_source(
    store: Store,
    calls: &[Observed],
    known: &[Need],
    fact: &Fact,
    reader: usize,
) -> Result<bool, NoMemory>
    requires within { reader < length calls.now }
    requires known { AreNeverMet store calls.now known.now }
    ensures never { IfOk result (λ none. IsTrue none → IsNeverMet store calls.now fact.now reader) }
{
    if !is_need(fact) {
        return Ok(false);
    }
    if !is_kept(store, fact) {
        return Ok(false);
    }
    let read = &calls[reader];
    let last = last_breaker(calls, fact, read)?;
    if !is_no_start(store, calls, fact, read, last) {
        return Ok(false);
    }
    have_no_source(store, calls, known, fact, reader, read, last)
}

/// Checks that no loss makes the fact.
pub(crate) fn is_kept(store: Store, fact: &Fact) -> bool
    ensures kept { IsTrue result → IsLossless store fact.now }
{
    !holds_without(fact) || (!store.forget && !store.warm)
}

/// Checks that the start is no source of the fact.
pub(crate) fn is_no_start(
    store: Store,
    calls: &[Observed],
    fact: &Fact,
    read: &Observed,
    last: Option<&Observed>,
) -> bool
    requires last { IfSome last (λ b. IsBreakerIn calls.now fact.now read.now b.now) }
    ensures start { IsTrue result → IsNoStart store calls.now fact.now read.now }
{
    match last {
        Some(_) => true,
        None => !store.warm && !holds_without(fact),
    }
}

// Checks that no call is a source of the fact for the reader.
fn have_no_source(
    store: Store,
    calls: &[Observed],
    known: &[Need],
    fact: &Fact,
    reader: usize,
    read: &Observed,
    last: Option<&Observed>,
) -> Result<bool, NoMemory>
    requires read { slice_get calls.now reader ≡ Some read.now }
    requires known { AreNeverMet store calls.now known.now }
    requires last { IfSome last (λ b. IsBreakerIn calls.now fact.now read.now b.now) }
    ensures none { IfOk result
        (λ none. IsTrue none → AreNoSources store calls.now fact.now reader (length calls.now)) }
{
    for at in 0..calls.len() {
        if !is_passed(store, calls, known, fact, at, reader, read, last)? {
            return Ok(false);
        }
    }
    Ok(true)
}

/// Finds the call that is sent last, of the sure calls that surely leave what excludes the fact and
/// are surely before the reader.
pub(crate) fn last_breaker<'a>(
    calls: &'a [Observed],
    fact: &Fact,
    reader: &Observed,
) -> Result<Option<&'a Observed>, NoMemory>
    ensures some { IfOk result
        (λ last. IfSome last (λ b. IsBreakerIn calls.now fact.now reader.now b.now)) }
{
    let mut last = None;
    for at in 0..calls.len() {
        last = later_breaker(calls, fact, reader, last, at)?;
    }
    Ok(last)
}

// Returns the call at a place if it is a breaker that is sent later than the last one, and
// otherwise the last one.
#[tactic(auto, using(crate::proofs::PlaceLemmas::breaker_at))]
fn later_breaker<'a>(
    calls: &'a [Observed],
    fact: &Fact,
    reader: &Observed,
    last: Option<&'a Observed>,
    at: usize,
) -> Result<Option<&'a Observed>, NoMemory>
    requires at { at < length calls.now }
    requires last { IfSome last (λ b. IsBreakerIn calls.now fact.now reader.now b.now) }
    ensures some { IfOk result
        (λ last. IfSome last (λ b. IsBreakerIn calls.now fact.now reader.now b.now)) }
{
    let call = &calls[at];
    if !is_sent_later(call, last) || !is_breaker(call, fact, reader)? {
        return Ok(last);
    }
    Ok(Some(call))
}

// Checks whether a call was sent later than another one, if there is one.
fn is_sent_later(call: &Observed, last: Option<&Observed>) -> bool {
    match last {
        Some(last) => last.sent < call.sent,
        None => true,
    }
}

// Checks whether a sure call surely leaves what excludes the fact, and is surely before the reader.
fn is_breaker(call: &Observed, fact: &Fact, reader: &Observed) -> Result<bool, NoMemory>
    ensures some { IfOk result (λ is. IsTrue is → IsBreaker fact.now reader.now call.now) }
{
    if !call.sure || !is_surely_before(call, reader) {
        return Ok(false);
    }
    leaves_not(call, fact)
}

/// Checks whether a call surely leaves what excludes the fact.
pub(crate) fn leaves_not(call: &Observed, fact: &Fact) -> Result<bool, NoMemory>
    ensures value { IfOk result (λ leaves. leaves
        ≡ not (Facts.may_hold_beside (Needs.left_by call.now.call call.now.shown) fact.now)) }
{
    let left = left_by(&call.call, &call.shown)?;
    let beside = may_hold_beside(&left, fact);
    drop(left);
    Ok(!beside)
}

/// Checks that the call at a place is no source of the fact for the reader.
pub(crate) fn is_passed(
    store: Store,
    calls: &[Observed],
    known: &[Need],
    fact: &Fact,
    at: usize,
    reader: usize,
    read: &Observed,
    last: Option<&Observed>,
) -> Result<bool, NoMemory>
    requires at { at < length calls.now }
    requires read { slice_get calls.now reader ≡ Some read.now }
    requires known { AreNeverMet store calls.now known.now }
    requires last { IfSome last (λ b. IsBreakerIn calls.now fact.now read.now b.now) }
    ensures none { IfOk result (λ is. IsTrue is → IsNoMakerAt store calls.now fact.now at reader) }
{
    is_no_maker(
        store, calls, known, fact, at, reader, &calls[at], read, last,
    )
}

// Checks that a call is the reader, cannot make the fact, or is no source of it.
fn is_no_maker(
    store: Store,
    calls: &[Observed],
    known: &[Need],
    fact: &Fact,
    at: usize,
    reader: usize,
    call: &Observed,
    read: &Observed,
    last: Option<&Observed>,
) -> Result<bool, NoMemory>
    requires known { AreNeverMet store calls.now known.now }
    requires last { IfSome last (λ b. IsBreakerIn calls.now fact.now read.now b.now) }
    ensures none { IfOk result
        (λ is. IsTrue is → IsNoMaker store calls.now fact.now at call.now reader read.now) }
{
    if at == reader {
        return Ok(true);
    }
    if !may_make(&call.call, &call.shown, fact) {
        return Ok(true);
    }
    is_no_source(store, calls, known, fact, at, call, read, last)
}

// Checks that a call is no source of the fact for another one.
fn is_no_source(
    store: Store,
    calls: &[Observed],
    known: &[Need],
    fact: &Fact,
    at: usize,
    call: &Observed,
    reader: &Observed,
    last: Option<&Observed>,
) -> Result<bool, NoMemory>
    requires known { AreNeverMet store calls.now known.now }
    requires last { IfSome last (λ b. IsBreakerIn calls.now fact.now reader.now b.now) }
    ensures none { IfOk result
        (λ is. IsTrue is → IsNoSource store calls.now fact.now at call.now reader.now) }
{
    if is_surely_before(reader, call) || is_undone_by(calls, fact, call, reader, last) {
        return Ok(true);
    }
    if is_undone(calls, fact, at, call, reader)? {
        return Ok(true);
    }
    Ok(has_no_rest(store, calls, known, fact, at, call))
}

// Checks whether a call is surely before a breaker, if there is one.
fn is_undone_by(
    calls: &[Observed],
    fact: &Fact,
    call: &Observed,
    reader: &Observed,
    last: Option<&Observed>,
) -> bool
    requires last { IfSome last (λ b. IsBreakerIn calls.now fact.now reader.now b.now) }
    ensures some { IsTrue result → IsUndone calls.now fact.now call.now reader.now }
{
    match last {
        Some(last) => is_surely_before(call, last),
        None => false,
    }
}

// Checks whether a call at a place was surely undone before the reader. What undid it was sent later, so
// it stands after it.
#[tactic(auto, using(crate::proofs::PlaceLemmas::undone_at))]
fn is_undone(
    calls: &[Observed],
    fact: &Fact,
    at: usize,
    call: &Observed,
    reader: &Observed,
) -> Result<bool, NoMemory>
    ensures some { IfOk result (λ is. IsTrue is → IsUndone calls.now fact.now call.now reader.now) }
{
    for by in at..calls.len() {
        if is_surely_before(reader, &calls[by]) {
            return Ok(false);
        }
        if is_surely_before(call, &calls[by]) && is_breaker(&calls[by], fact, reader)? {
            return Ok(true);
        }
    }
    Ok(false)
}
